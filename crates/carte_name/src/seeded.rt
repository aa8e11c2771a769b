use std::hash::{BuildHasher, FoldHasher, Hasher};

/// What the hash maps of names are made with: a hash that begins with a seed. `FoldHasher` by itself is fixed, and names can be
/// chosen that collide in it, which makes a map of n of them take n² steps; whoever chooses names doesn't know the seed.
/// No answer depends on it, since no order of a hash map leaves the crate that has the map.
#[derive(Clone, Copy, Debug)]
pub struct Seeded {
    first: FoldHasher,
}

impl Seeded {
    /// The hash that begins with this seed.
    pub fn of(seed: u64) -> Seeded {
        let mut first = FoldHasher::default();
        first.write_u64(seed);
        Seeded { first }
    }
}

impl BuildHasher for Seeded {
    type Hasher = FoldHasher;

    ghost build_hasher = { λ s. s.first };

    fn build_hasher(&self) -> FoldHasher {
        self.first
    }
}
