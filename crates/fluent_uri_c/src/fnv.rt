//! The hash FNV-1a of 64 bits, by Fowler, Noll and Vo.

use std::hash::Hasher;

/// A state of the hash.
#[derive(Drop)]
pub struct Fnv {
    pub state: u64,
}

impl Hasher for Fnv {
    ghost use Rattle.fluent_uri_c.specs.Fnv.{fnv_write};

    ghost write = { fnv_write };

    ghost finish = { λ hasher. hasher.state };

    /// Returns the hash.
    fn finish(&self) -> u64 {
        self.state
    }

    /// Hashes bytes, one after the other.
    fn write(&mut self, bytes: &[u8]) {
        for &byte in bytes {
            self.state = (self.state ^ u64::from(byte)).wrapping_mul(1099511628211);
        }
    }
}
