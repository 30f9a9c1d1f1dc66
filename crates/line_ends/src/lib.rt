// Where a line of a source ends.
#![tactic(auto)]

ghost use Rattle.std.specs.Prelude.{◌≡◌, ◌≤◌, length};
ghost use Rattle.rules.specs.Lines.{drop_cr};
ghost use Rattle.line_ends.specs.LineEnds.{LineEnd};

mod feeds;

use blocks::bytes::Passing;
use blocks::lanes;
use feeds::LineFeed;

// The place of the first LF from `at` on, or the source's end. An empty line is told at once, a short one by its first
// sixteen bytes. Lines differ in length, so that a branch for each block of fewer than 64 bytes could not be predicted.
// Part of the loop over the lines.
#[inline(always)]
pub fn line_end(source: &[u8], at: usize) -> usize
    requires { at ≤ length source.now }
    ensures { LineEnd source.now at result }
{
    let n = source.len();
    if at < n && source[at] == b'\n' {
        return at;
    }
    let feeds = Passing {
        bytes: source,
        test: LineFeed,
    };
    if 64 <= n {
        lanes::first_near::<16, 64, _>(&feeds, at, n)
    } else {
        lanes::first(&feeds, at, n)
    }
}

// Without one CR at its end.
pub fn without_cr(line: &[u8]) -> &[u8]
    ensures { result.now ≡ drop_cr line.now }
{
    match line {
        [head @ .., last] if *last == b'\r' => head,
        _ => line,
    }
}
