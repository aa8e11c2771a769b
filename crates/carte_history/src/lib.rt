//! Histories: runs of the program one after another over one state in memory, each of which may be cut off.
//!
//! What is proved of one run speaks of whatever history came before. Here such a history is made: each run is one call of
//! the program's top call over devices in memory, and the next one finds what a crash of the disk leaves, as it is picked.
//! So the premises of each run's outcome are met by the runs before it, and what follows is promised of `history` (`IsHistory`).
//!
//! The form chosen: what a history shows is told by the outcome of each of its runs (`IsShown`), over a memory of each
//! device before and after it; its commits are steps (`AreSteps`), and the promises are said over these (`IsPromised`).
//! A run whose devices failed otherwise than by its stop is no run of a history: memory was lacking in them, and so the
//! history gives up.
//!
//! Turned down: one disk on which the runs go on, with a stop set anew for each, since the calls that passed would have to
//! be counted from run to run; and devices that fail by a list, of which tests make runs of their own.
#![tactic(auto)]

mod histories;
mod run;
mod show;

pub use histories::history;
pub use run::{Run, Shown, Stop};
