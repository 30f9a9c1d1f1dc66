// The bytes that can start something in code, in a string and in a block comment.
ghost use Rattle.std.specs.Prelude.{◌≡◌, ◌≤◌, map};
ghost use Rattle.std.specs.Simd.Lanes.{mask_l};
ghost use Rattle.scan.specs.Stretch.{starts_in_code, stops_string, turns_comment};

use blocks::bytes::{ByteLanes, ByteTest};
use std::simd::prelude::*;

// Whether b can start something in code.
#[tactic(auto, unfolding(crate::specs::Stretch::starts_in_code))]
pub fn starts_in_code(b: u8) -> bool
    ensures { result ≡ starts_in_code b }
{
    matches!(b, b'\\' | b'"' | b'\'' | b'/' | b'$')
}

// The bytes that can start something in code.
#[derive(Drop)]
pub struct Starts;

impl ByteTest for Starts {
    ghost passes = { λ s. starts_in_code };

    fn test(&self, b: u8) -> bool {
        starts_in_code(b)
    }
}

impl<const N: usize> ByteLanes<N> for Starts {
    fn mask(&self, v: Simd<u8, N>) -> u64
        requires { N ≤ 64 }
        ensures { result ≡ mask_l (map starts_in_code v.entry) }
    {
        (v.simd_eq(Simd::splat(b'\\'))
            | v.simd_eq(Simd::splat(b'"'))
            | v.simd_eq(Simd::splat(b'\''))
            | v.simd_eq(Simd::splat(b'/'))
            | v.simd_eq(Simd::splat(b'$'))).to_bitmask()
    }
}

// The bytes that can start something in a string, or end one.
#[derive(Drop)]
pub struct Stops;

impl ByteTest for Stops {
    ghost passes = { λ s. stops_string };

    #[tactic(auto, unfolding(crate::specs::Stretch::stops_string))]
    fn test(&self, b: u8) -> bool {
        matches!(b, b'\\' | b'"' | b'\'' | b'$')
    }
}

impl<const N: usize> ByteLanes<N> for Stops {
    fn mask(&self, v: Simd<u8, N>) -> u64
        requires { N ≤ 64 }
        ensures { result ≡ mask_l (map stops_string v.entry) }
    {
        (v.simd_eq(Simd::splat(b'\\'))
            | v.simd_eq(Simd::splat(b'"'))
            | v.simd_eq(Simd::splat(b'\''))
            | v.simd_eq(Simd::splat(b'$'))).to_bitmask()
    }
}

// The bytes that can open a block comment in another, or end one.
#[derive(Drop)]
pub struct Turns;

impl ByteTest for Turns {
    ghost passes = { λ s. turns_comment };

    fn test(&self, b: u8) -> bool {
        matches!(b, b'/' | b'*')
    }
}

impl<const N: usize> ByteLanes<N> for Turns {
    fn mask(&self, v: Simd<u8, N>) -> u64
        requires { N ≤ 64 }
        ensures { result ≡ mask_l (map turns_comment v.entry) }
    {
        (v.simd_eq(Simd::splat(b'/')) | v.simd_eq(Simd::splat(b'*'))).to_bitmask()
    }
}
