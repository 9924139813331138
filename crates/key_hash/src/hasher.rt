//! A hash by folded multiplication, a number at a time.
ghost use Rattle.std.specs.Prelude.{◌≡◌, fold};
ghost use Rattle.key_hash.specs.KeyHash.{with_word};

use std::hash::{BuildHasherDefault, Hasher};

/// The hash of nothing.
const SEED: u64 = 0x243f_6a88_85a3_08d3;

/// What the hash is multiplied by with each word.
const MULTIPLIER: u64 = 0x9e37_79b9_7f4a_7c15;

/// The hash of what was fed. Whoever picks keys can make them collide, as with std's own default.
#[derive(Clone, Copy)]
pub struct KeyHasher {
    hash: u64,
}

/// How a map hashes by it, as its type says.
pub type KeyHashing = BuildHasherDefault<KeyHasher>;

impl Default for KeyHasher {
    fn default() -> KeyHasher {
        KeyHasher { hash: SEED }
    }
}

impl KeyHasher {
    // One word more.
    #[inline(always)]
    fn add(&mut self, word: u64)
        ensures { self.new.hash ≡ with_word self.old.hash word }
    {
        let product = (self.hash ^ word) as u128 * MULTIPLIER as u128;
        self.hash = (product & 0xffff_ffff_ffff_ffff) as u64 ^ (product >> 64) as u64;
    }

    // Each byte as one word more.
    fn add_each(&mut self, bytes: &[u8])
        ensures { self.new.hash ≡ fold with_word self.old.hash bytes.now }
    {
        for byte in bytes {
            self.add(*byte as u64);
        }
    }
}

impl Hasher for KeyHasher {
    ghost use Rattle.key_hash.specs.KeyHash.{with_bytes};

    ghost write = { λ hasher bytes. record { hash = with_bytes hasher.hash bytes } };

    ghost finish = { λ hasher. hasher.hash };

    #[inline(always)]
    fn finish(&self) -> u64 {
        self.hash
    }

    #[inline(always)]
    fn write(&mut self, bytes: &[u8]) {
        match *bytes {
            [a, b, c, d] => self.add(u32::from_le_bytes([a, b, c, d]) as u64),
            [a, b, c, d, e, f, g, h] => self.add(u64::from_le_bytes([a, b, c, d, e, f, g, h])),
            _ => self.add_each(bytes),
        }
    }

    #[inline(always)]
    fn write_u8(&mut self, i: u8) {
        self.add(i as u64);
    }

    #[inline(always)]
    fn write_u32(&mut self, i: u32) {
        self.add(i as u64);
    }

    #[inline(always)]
    fn write_u64(&mut self, i: u64) {
        self.add(i);
    }

    #[inline(always)]
    fn write_usize(&mut self, i: usize) {
        self.add(i as u64);
    }
}
