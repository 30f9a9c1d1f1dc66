// A run of bytes that do not pass a test, and their class bytes, in blocks: what stands behind it on its line is written
// later.
ghost use Rattle.std.specs.Prelude.{◌+◌, ◌≤◌, ◌<◌, length, get_or};
ghost use Rattle.blocks.specs.Blocks.{FirstFrom};
ghost use Rattle.scan.specs.Marked.{Span, Marked};
ghost use Rattle.scan.specs.Stretch.{Room};

use blocks::bytes::{ByteLanes, Passing};
use blocks::lanes::{self, LaneTest, PlaceTest};

// kept: the line, a place, k and the class bytes are no struct with methods: it would hold the lent bytes, and each
// contract would say once more that k stays

// A block of W bytes at `at`.
fn block<const W: usize>(class: &mut [u8], at: usize, n: usize, k: u8)
    requires span { Span at (at + W) n class.old }
    ensures { Marked k at (at + W) n class.old class.new }
{
    buffer::fill(&mut class[at..at + W], k);
}

// Past those of the N places from `at` on that come before the first at which the test holds. All N get the class byte.
fn vector<const N: usize, S: LaneTest<N>>(
    s: &S,
    at: usize,
    n: usize,
    k: u8,
    class: &mut [u8],
) -> usize
    requires lanes { (0 < N) × (N ≤ 64) }
    requires span { Span at (at + N) n class.old }
    requires in_bounds { n ≤ S.places s.now }
    ensures first { FirstFrom (S.holds s.now) at (at + N) result }
    ensures marked { Marked k at (at + N) n class.old class.new }
{
    block::<N>(class, at, n, k);
    lanes::first_in::<N, S>(s, at, at + N)
}

// Past the places up to n at which the test does not hold, one at a time.
fn singly<S: PlaceTest>(s: &S, at: usize, n: usize, k: u8, class: &mut [u8]) -> usize
    requires span { Span at n n class.old }
    requires in_bounds { n ≤ S.places s.now }
    ensures first { FirstFrom (S.holds s.now) at n result }
    ensures marked { Marked k at result n class.old class.new }
{
    for i in at..n {
        if s.at(i) {
            return i;
        }
        class[i] = k;
    }
    n
}

// The same where there are fewer than sixteen: few of them one at a time, and else the last eight may overlap the first.
fn tail<S: LaneTest<8>>(s: &S, at: usize, n: usize, k: u8, class: &mut [u8]) -> usize
    requires span { Span at n n class.old }
    requires in_bounds { n ≤ S.places s.now }
    requires few { n < at + 16 }
    ensures first { FirstFrom (S.holds s.now) at n result }
    ensures marked { Marked k at result n class.old class.new }
{
    if n - at < 8 {
        return singly::<S>(s, at, n, k, class);
    }
    let i = vector::<8, S>(s, at, n, k, class);
    if i < at + 8 {
        return i;
    }
    if n - i < 4 {
        return singly::<S>(s, i, n, k, class);
    }
    let e = lanes::first_in::<8, S>(s, i, n);
    block::<8>(class, n - 8, n, k);
    e
}

// The same, however many there are.
fn past<S: LaneTest<16> + LaneTest<8>>(s: &S, at: usize, n: usize, k: u8, class: &mut [u8]) -> usize
    requires span { Span at n n class.old }
    requires in_bounds { n ≤ S.places s.now }
    ensures first { FirstFrom (S.holds s.now) at n result }
    ensures marked { Marked k at result n class.old class.new }
{
    let mut i = at;
    // kept: a range is no plainer: the place behind the last whole block is used behind the loop
    while 16 <= n - i {
        let e = vector::<16, S>(s, i, n, k, class);
        if e < i + 16 {
            return e;
        }
        i = e;
    }
    tail::<S>(s, i, n, k, class)
}

// Past the bytes that do not pass the test, all of the class byte k.
pub fn plain<T: ByteLanes<16> + ByteLanes<8> + Drop>(
    line: &[u8],
    at: usize,
    test: T,
    k: u8,
    class: &mut [u8],
) -> usize
    requires { Room line.now at class.old }
    ensures first { FirstFrom (λ j. T.passes test (get_or line.now j 0)) at (length line.now)
        result }
    ensures marked { Marked k at result (length line.now) class.old class.new }
{
    past(&Passing { bytes: line, test }, at, line.len(), k, class)
}
