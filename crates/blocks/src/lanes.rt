// A search for a place at which a test holds, by vectors.
ghost use Rattle.std.specs.Prelude.{◌≡◌, ◌+◌, ◌-◌, ◌<◌, ◌≤◌, ℕ, Bool, cond, eqb};
ghost use Rattle.std.specs.Int.Count.{count_trailing_zeros};
ghost use Rattle.blocks.specs.Blocks.{FirstFrom};
ghost use Rattle.blocks.specs.Marks.{Marks, Passed};

// A test of each place below `places`.
pub trait PlaceTest {
    ghost places: { Self → ℕ };

    ghost holds: { Self → ℕ → Bool };

    fn at(&self, i: usize) -> bool
        requires { i < places self.now }
        ensures { result ≡ holds self.now i };
}

// The same test at N places at once.
pub trait LaneTest<const N: usize>: PlaceTest {
    fn marks(&self, i: usize) -> u64
        requires { (0 < N) × (N ≤ 64) × (i + N ≤ Self.places self.now) }
        ensures { Marks (Self.holds self.now) i N result };
}

// How many of n places come before the first that is found.
fn before(found: u64, n: usize) -> usize
    ensures { result ≡ cond (eqb found 0) n (count_trailing_zeros 64 found) }
{
    if found == 0 {
        n
    } else {
        found.trailing_zeros() as usize
    }
}

// How many of the N places from i on come before the first at which the test holds.
fn passed<const N: usize, S: LaneTest<N>>(s: &S, i: usize) -> usize
    requires { (0 < N) × (N ≤ 64) × (i + N ≤ S.places s.now) }
    ensures { Passed (S.holds s.now) i N result }
{
    before(s.marks(i), N)
}

// The same of the places from i up to `end`, at most N: by the last N before it.
fn passed_last<const N: usize, S: LaneTest<N>>(s: &S, i: usize, end: usize) -> usize
    requires lanes { (0 < N) × (N ≤ 64) × (N ≤ end) }
    requires in_bounds { (i < end) × (end ≤ i + N) × (end ≤ S.places s.now) }
    ensures { Passed (S.holds s.now) i (end - i) result }
{
    let from = end - N;
    before(s.marks(from) >> (i - from), end - i)
}

// The first place from `at` on at which the test holds, or `end`, N at a time; there are N before `end` or more.
pub fn first_in<const N: usize, S: LaneTest<N>>(s: &S, at: usize, end: usize) -> usize
    requires lanes { (0 < N) × (N ≤ 64) × (N ≤ end) }
    requires in_bounds { (at ≤ end) × (end ≤ S.places s.now) }
    ensures { FirstFrom (S.holds s.now) at end result }
{
    if at == end {
        return end;
    }
    let mut i = at;
    // kept: a range is no plainer, since the place that the last whole block leads to is used behind the loop
    while end - i > N {
        let n = passed::<N, S>(s, i);
        if n < N {
            return i + n;
        }
        i += N;
    }
    i + passed_last::<N, S>(s, i, end)
}

// The same, the first N places alone, since one is often near, and then M at a time.
pub fn first_near<const N: usize, const M: usize, S: LaneTest<N> + LaneTest<M>>(
    s: &S,
    at: usize,
    end: usize,
) -> usize
    requires lanes { (0 < N) × (N ≤ 64) × (0 < M) × (M ≤ 64) × (M ≤ end) }
    requires in_bounds { (at ≤ end) × (end ≤ S.places s.now) }
    ensures { FirstFrom (S.holds s.now) at end result }
{
    if end - at < N {
        return first_in::<M, S>(s, at, end);
    }
    let n = passed::<N, S>(s, at);
    if n < N {
        at + n
    } else {
        first_in::<M, S>(s, at + N, end)
    }
}

// The same, however few there are.
pub fn first<S: LaneTest<16> + LaneTest<8>>(s: &S, at: usize, end: usize) -> usize
    requires { (at ≤ end) × (end ≤ S.places s.now) }
    ensures { FirstFrom (S.holds s.now) at end result }
{
    if 16 <= end {
        first_in::<16, S>(s, at, end)
    } else if 8 <= end {
        first_in::<8, S>(s, at, end)
    } else {
        (at..end).find(|i| s.at(*i)).unwrap_or(end)
    }
}
