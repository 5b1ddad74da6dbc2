use std::hash::{BuildHasher, DefaultHasher, RandomState};
use std::io;
use std::random::RandomSource;

/// How maps hash keys that strangers choose: SipHash with keys that they don't know.
#[derive(Clone, Copy)]
pub struct Hashing {
    initial: DefaultHasher,
}

impl Hashing {
    /// With keys from the system.
    pub fn new(rt: &impl RandomSource) -> io::Result<Hashing> {
        let keys = RandomState::new(rt)?;
        Ok(Hashing {
            initial: keys.build_hasher(),
        })
    }
}

impl BuildHasher for Hashing {
    type Hasher = DefaultHasher;

    ghost build_hasher = { λ hashing. hashing.initial };

    fn build_hasher(&self) -> DefaultHasher {
        self.initial
    }
}
