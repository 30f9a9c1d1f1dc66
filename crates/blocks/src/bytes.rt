// A search for a byte that passes a test, by vectors.
ghost use Rattle.std.specs.Prelude.{◌≡◌, ◌≤◌, ℕ, Bool, length, get_or, map};
ghost use Rattle.std.specs.Simd.Lanes.{mask_l};

use crate::lanes::{LaneTest, PlaceTest};
use std::simd::prelude::*;

// A test of a byte.
pub trait ByteTest {
    ghost passes: { Self → ℕ → Bool };

    fn test(&self, b: u8) -> bool
        ensures { result ≡ passes self.now b };
}

// The same test of N bytes at once.
pub trait ByteLanes<const N: usize>: ByteTest {
    fn mask(&self, v: Simd<u8, N>) -> u64
        requires { N ≤ 64 }
        ensures { result ≡ mask_l (map (Self.passes self.now) v.entry) };
}

// The places of bytes at which the byte passes the test.
#[derive(Drop)]
pub struct Passing<'a, T> {
    pub bytes: &'a [u8],
    pub test: T,
}

impl<'a, T: ByteTest> PlaceTest for Passing<'a, T> {
    ghost places = { λ s. length s.bytes.now };

    ghost holds = { λ s i. T.passes s.test (get_or s.bytes.now i 0) };

    fn at(&self, i: usize) -> bool {
        let bytes = self.bytes;
        self.test.test(bytes[i])
    }
}

impl<'a, const N: usize, T: ByteLanes<N>> LaneTest<N> for Passing<'a, T> {
    fn marks(&self, i: usize) -> u64 {
        let bytes = self.bytes;
        self.test.mask(Simd::<u8, N>::from_slice(&bytes[i..]))
    }
}
