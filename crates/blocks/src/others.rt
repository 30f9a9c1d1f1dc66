// Bytes other than one.
ghost use Rattle.std.specs.Prelude.{◌≡◌, ◌≤◌, map, not, eqb};
ghost use Rattle.std.specs.Simd.Lanes.{mask_l};

use crate::bytes::{ByteLanes, ByteTest};
use std::simd::prelude::*;

#[derive(Drop)]
pub struct Other {
    pub b: u8,
}

impl ByteTest for Other {
    ghost passes = { λ s x. not (eqb x s.b) };

    fn test(&self, b: u8) -> bool {
        b != self.b
    }
}

impl<const N: usize> ByteLanes<N> for Other {
    fn mask(&self, v: Simd<u8, N>) -> u64
        requires { N ≤ 64 }
        ensures { result ≡ mask_l (map (λ x. not (eqb x self.now.b)) v.entry) }
    {
        v.simd_ne(Simd::splat(self.b)).to_bitmask()
    }
}
