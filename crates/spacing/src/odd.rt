// The bytes of which spacing may change something, given what class they are of and what stands beside them.
ghost use Rattle.std.specs.Prelude.{◌≡◌, ◌-◌, length, min};
ghost use Rattle.spacing.specs.Respaced.{odd, odd_at};

use blocks::lanes::{LaneTest, PlaceTest};
use rules::class_byte::CODE;
use std::simd::prelude::*;

// Whether spacing may change something of the byte x of class k, which stands behind w, and which y of class l and z
// follow: in code a backslash, two spaces, or a comma but one that stands behind no blank, and before a space of code and
// then something that is no blank and no closer.
fn is_odd(w: u8, x: u8, y: u8, z: u8, k: u8, l: u8) -> bool
    ensures { result ≡ odd w x y z k l }
{
    let blank = (w == b' ') | (w == b'\t');
    let shut = ((z == b' ') | (z == b'\t')) | (((z == b'}') | (z == b')')) | (z == b']'));
    let gap = (blank | ((y != b' ') | (l != CODE))) | shut;
    (k == CODE) & (((x == b'\\') | ((x == b' ') & (y == b' '))) | ((x == b',') & gap))
}

// The places of a line but its last three, each for the byte behind it.
#[derive(Drop)]
pub struct Odd<'a> {
    pub line: &'a [u8],
    pub class: &'a [u8],
}

impl<'a> PlaceTest for Odd<'a> {
    ghost places = { λ s. min (length s.line.now) (length s.class.now) - 3 };

    ghost holds = { λ s. odd_at s.line.now s.class.now };

    fn at(&self, i: usize) -> bool {
        let line = self.line;
        let class = self.class;
        is_odd(
            line[i],
            line[i + 1],
            line[i + 2],
            line[i + 3],
            class[i + 1],
            class[i + 2],
        )
    }
}

impl<'a, const N: usize> LaneTest<N> for Odd<'a> {
    fn marks(&self, i: usize) -> u64 {
        let line = self.line;
        let class = self.class;
        let w = Simd::<u8, N>::from_slice(&line[i..]);
        let x = Simd::<u8, N>::from_slice(&line[i + 1..]);
        let y = Simd::<u8, N>::from_slice(&line[i + 2..]);
        let z = Simd::<u8, N>::from_slice(&line[i + 3..]);
        let k = Simd::<u8, N>::from_slice(&class[i + 1..]);
        let l = Simd::<u8, N>::from_slice(&class[i + 2..]);
        let space = Simd::splat(b' ');
        let tab = Simd::splat(b'\t');
        let code = Simd::splat(CODE);
        let blank = w.simd_eq(space) | w.simd_eq(tab);
        let shut = (z.simd_eq(space) | z.simd_eq(tab))
            | ((z.simd_eq(Simd::splat(b'}')) | z.simd_eq(Simd::splat(b')')))
                | z.simd_eq(Simd::splat(b']')));
        let gap = (blank | (y.simd_ne(space) | l.simd_ne(code))) | shut;
        (k.simd_eq(code)
            & ((x.simd_eq(Simd::splat(b'\\')) | (x.simd_eq(space) & y.simd_eq(space)))
                | (x.simd_eq(Simd::splat(b',')) & gap))).to_bitmask()
    }
}
