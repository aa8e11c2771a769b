//! Finished keys, and what each brings to the batch of a build.
//!
//! All rebuilders do the same with a finished key, but for what they link and for what they leave alone, so there is one
//! function for them. It says what it makes of the batch twice. Its inner functions say which items stand behind those of
//! each list of the batch, read off the lists alone. The public clause says what that means: a batch that carries the
//! difference that some finished keys have made carries that of one key more, whatever these keys were. So a build notes
//! its keys one by one, and no list of the batch is looked at again.
//!
//! A key that ran brings its value, where neither the store nor the batch has its digest, and its trace. Its entry is
//! written where the kept one differs, and with it those inputs that it names and that weren't seen so. A held key whose
//! entry is as it should be brings nothing: a build that changes nothing has an empty batch, and compares without copying.
//!
//! The digest of the value is taken once, those of inputs are the links', and that of the task is the book's, which is asked
//! for it but once a key. What a deep trace names is gathered as the key is finished, and copied here. Turned down: a function
//! for each rebuilder, which is four proofs of one thing; and the batch as the difference of two stations, worked out at the
//! end, which would go through all that is kept.
#![tactic(auto)]

mod digests;
mod entry;
mod finished;
mod list;
mod method;
mod note;
mod see;

pub use finished::Finished;
pub use list::FinishedList;
pub use method::Method;
pub use note::note_finished;
