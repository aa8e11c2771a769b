//! Gates that ask for every part of a wave.

use carte_io::Gate;
use std::marker::Sync;
use std::sync::atomic::{AtomicU64, Ordering};
use std::sync::{Barrier, Wait};

/// Lets all parts pass.
#[derive(Drop)]
pub(crate) struct Wide;

impl Gate for Wide {
    fn enter(&self, _part: usize) {}

    fn wants_all(&self) -> bool {
        true
    }
}

/// Holds each part until another has come, and counts these pairs.
#[derive(Drop)]
pub(crate) struct Meeting<'a, R: Wait> {
    rt: &'a R,
    two: Barrier,
    pairs: AtomicU64,
}

impl<'a, R: Wait> Meeting<'a, R> {
    pub(crate) fn new(rt: &'a R) -> Meeting<'a, R> {
        Meeting {
            rt,
            two: Barrier::new(2),
            pairs: AtomicU64::new(0),
        }
    }

    pub(crate) fn pairs(&self) -> u64 {
        self.pairs.load(Ordering::SeqCst)
    }
}

impl<R: Wait + Sync> Gate for Meeting<'_, R> {
    fn enter(&self, _part: usize) {
        if self.two.wait(self.rt).is_leader() {
            self.pairs.fetch_add(1, Ordering::SeqCst);
        }
    }

    fn wants_all(&self) -> bool {
        true
    }
}

/// Counts how often each part comes, in a number with a digit a part, and asks for all parts or for none.
#[derive(Drop)]
pub(crate) struct Counting {
    all: bool,
    digits: AtomicU64,
}

impl Counting {
    pub(crate) fn of(all: bool) -> Counting {
        let digits = AtomicU64::new(0);
        Counting { all, digits }
    }

    pub(crate) fn entered(&self) -> u64 {
        self.digits.load(Ordering::SeqCst)
    }
}

const DIGITS: [u64; 8] = [1, 10, 100, 1_000, 10_000, 100_000, 1_000_000, 10_000_000];

impl Gate for Counting {
    fn enter(&self, part: usize) {
        if let Some(digit) = DIGITS.get(part) {
            self.digits.fetch_add(*digit, Ordering::SeqCst);
        }
    }

    fn wants_all(&self) -> bool {
        self.all
    }
}
