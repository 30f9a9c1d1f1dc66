// The byte that ends a line.
ghost use Rattle.std.specs.Prelude.{◌≡◌, ◌≤◌, map};
ghost use Rattle.std.specs.Simd.Lanes.{mask_l};
ghost use Rattle.line_ends.specs.LineEnds.{is_lf};

use blocks::bytes::{ByteLanes, ByteTest};
use std::simd::prelude::*;

#[derive(Drop)]
pub struct LineFeed;

impl ByteTest for LineFeed {
    ghost passes = { λ s. is_lf };

    fn test(&self, b: u8) -> bool {
        b == b'\n'
    }
}

impl<const N: usize> ByteLanes<N> for LineFeed {
    fn mask(&self, v: Simd<u8, N>) -> u64
        requires { N ≤ 64 }
        ensures { result ≡ mask_l (map is_lf v.entry) }
    {
        v.simd_eq(Simd::splat(b'\n')).to_bitmask()
    }
}
