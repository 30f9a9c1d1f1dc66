// The bytes of which spacing may change something.
ghost use Rattle.std.specs.Prelude.{◌≡◌, ◌-◌, length};
ghost use Rattle.spacing.specs.Respaced.{busy, busy_at};

use blocks::lanes::{LaneTest, PlaceTest};
use std::simd::prelude::*;

// Whether the byte x, which y follows, is a comma, a backslash or the first of two spaces. Spacing leaves a line without
// these as it is, whatever its classes are.
fn is_busy(x: u8, y: u8) -> bool
    ensures { result ≡ busy x y }
{
    ((x == b',') | (x == b'\\')) | ((x == b' ') & (y == b' '))
}

// The places of a line but its last.
#[derive(Drop)]
pub struct Busy<'a> {
    pub line: &'a [u8],
}

impl<'a> PlaceTest for Busy<'a> {
    ghost places = { λ s. length s.line.now - 1 };

    ghost holds = { λ s. busy_at s.line.now };

    fn at(&self, i: usize) -> bool {
        is_busy(self.line[i], self.line[i + 1])
    }
}

impl<'a, const N: usize> LaneTest<N> for Busy<'a> {
    fn marks(&self, i: usize) -> u64 {
        let line = self.line;
        let x = Simd::<u8, N>::from_slice(&line[i..]);
        let y = Simd::<u8, N>::from_slice(&line[i + 1..]);
        let space = Simd::splat(b' ');
        ((x.simd_eq(Simd::splat(b',')) | x.simd_eq(Simd::splat(b'\\')))
            | (x.simd_eq(space) & y.simd_eq(space))).to_bitmask()
    }
}
