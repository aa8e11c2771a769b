//! What is kept from build to build, and why it may be trusted.
//!
//! Kept information says of each key what it gave, by which task and what it needed: entries, which are marked stale when
//! their rule, or a rule or an input beneath them, changes, and traces of three kinds. All of it was true of books that stood
//! once. It is sound for a history of books where each thing kept has such a book in the history, and where what is fresh
//! leads to seen inputs and to rules with entries of their tasks alone. A build marks, drops what is kept of names that
//! became something else, finishes keys, each by a run or by an old result, and leaves what is sound again. So an old result
//! that is given is always the clean value. This crate has these definitions and their laws, and no code: each law is the
//! contract of a function that does nothing.
//!
//! The definitions are of functions, and know no list of the code's: kept information that is alike is equal, so what a
//! build leaves is an equation. The four rebuilders, by marks alone and by the three kinds of traces, are one parameter,
//! and each law is proved once for all of them. What is true of one by itself, as which keys it holds where nothing has
//! changed and where it cuts off early, its own crate says. Turned down: soundness as an invariant of a type, which would
//! hide the history that a premise on digests speaks of; and one definition for each rebuilder, four times the proofs.
//!
//! The heart is that fresh entries are true of the present book though they come from different books, which may have
//! other rules elsewhere. It is an induction on the rounds of one of these, for two others that agree with the present one
//! beneath the key. From there on only a local fact is used: each fresh entry has the present task, value and needs, its
//! inputs are seen with present digests, and the rules that it needs are fresh.
//!
//! What a build brings is told for one batch, and for a list of them, each with a part of the finished keys: behind each the
//! keys so far are left, which is sound. One batch is the list of one. Turned down: stations that are worked out by
//! noting keys over what was committed, since which keys are held is told over what the build begins with.
//!
//! Digests stand in for values and formulas: the premise that no two clean values of a history have one digest, no two tasks
//! and no two sets of rules, is part of every law, and is left behind at once in a few lemmas.
#![tactic(auto)]

mod laws;
mod parts;
mod premises;

pub use laws::{
    batch_is_sound, batch_keeps_reached, deep_rules_hold, difference_is_left, dropping_is_by_role,
    finished_is_held, held_is_clean, left_is_sound, marking_is_sound, nothing_is_sound,
    reached_is_kept, sound_as_history_grows,
};
pub use parts::{
    each_station_is_sound, few_keys_are_one_part, later_difference_is_left, left_goes_on,
    one_part_leads, parts_keep_reached, parts_lead_to_stations, prefix_is_sound, rest_carries,
};
pub use premises::some_book_stands;
