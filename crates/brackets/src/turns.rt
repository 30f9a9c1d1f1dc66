// The bytes that may change how many brackets are open: brackets and backslashes.
ghost use Rattle.std.specs.Prelude.{◌≡◌, ◌≤◌, map};
ghost use Rattle.std.specs.Simd.Lanes.{mask_l};
ghost use Rattle.brackets.specs.Stack.{may_turn};

use blocks::bytes::{ByteLanes, ByteTest};
use std::simd::prelude::*;

// Each of these bytes and of those in the same ranges stands at its own place, and a comma at every other place.
static TURNING: [u8; 256] = *b"\
    ,,,,,,,,,,,,,,,,,,,,,,,,,,,,,,,,\
    ,,,,,,,,(),,,,,,,,,,,,,,,,,,,,,,\
    ,,,,,,,,,,,,,,,,,,,,,,,,,,,[\\],,\
    ,,,,,,,,,,,,,,,,,,,,,,,,,,,{|},,\
    ,,,,,,,,,,,,,,,,,,,,,,,,,,,,,,,,\
    ,,,,,,,,,,,,,,,,,,,,,,,,,,,,,,,,\
    ,,,,,,,,,,,,,,,,,,,,,,,,,,,,,,,,\
    ,,,,,,,,,,,,,,,,,,,,,,,,,,,,,,,,";

// Whether c may be a bracket or a backslash, which stand in three ranges.
pub fn may_turn(c: u8) -> bool
    ensures { result ≡ may_turn c }
{
    TURNING[c as usize] != b','
}

// The bytes that may change how many brackets are open.
#[derive(Drop)]
pub struct Turns;

impl ByteTest for Turns {
    ghost passes = { λ s. may_turn };

    fn test(&self, b: u8) -> bool {
        may_turn(b)
    }
}

// Of the three ranges the last two differ in one bit alone, and the bytes of the first in another.
impl<const N: usize> ByteLanes<N> for Turns {
    fn mask(&self, v: Simd<u8, N>) -> u64
        requires { N ≤ 64 }
        ensures { result ≡ mask_l (map may_turn v.entry) }
    {
        let folded = (v | Simd::splat(32)) - Simd::splat(123);
        let round = v | Simd::splat(1);
        (folded.simd_lt(Simd::splat(3)) | round.simd_eq(Simd::splat(41))).to_bitmask()
    }
}
