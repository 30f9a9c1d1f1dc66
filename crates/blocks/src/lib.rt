// A search for a place that passes a test, in blocks: the test is a closure, which the caller's loop takes in.
#![tactic(auto)]

pub mod bytes;
pub mod lanes;
pub mod others;

ghost use Rattle.std.specs.Prelude.{◌≡◌, ◌+◌, ◌*◌, ◌≤◌, ◌<◌, ◌^◌, ℕ, Bool};
ghost use Rattle.blocks.specs.Blocks.{Tells, NoneAmong, NoneFrom, FirstFrom, NoneBefore};

// Whether one of the N places from `at` on passes the test. It makes no branch, so that they are tested at once.
pub fn any_among<const N: usize, F: Fn(usize) -> bool>(at: usize, test: &F) -> bool
    ghost meets: { ℕ → Bool }
    requires fits { at + N < 2 ^ 64 }
    requires tells { Tells (F.pre test.now) (F.post test.now) meets at (at + N) }
    ensures { NoneAmong meets at N result }
{
    let mut any = false;
    for k in 0..N {
        any |= test(at + k);
    }
    any
}

// Past the blocks of N places from `at` on none of which passes the test. Fewer than N places before `end` are no block.
pub fn past_blocks<const N: usize, F: Fn(usize) -> bool>(at: usize, end: usize, test: &F) -> usize
    ghost meets: { ℕ → Bool }
    requires some { 0 < N }
    requires in_order { at ≤ end }
    requires tells { Tells (F.pre test.now) (F.post test.now) meets at end }
    ensures { NoneFrom meets at end result }
{
    let mut i = at;
    // kept: a range is no plainer, since the place behind the last whole block is what the function gives
    while end - i >= N {
        if any_among::<N, F>(i, test) {
            return i;
        }
        i += N;
    }
    i
}

// The first place from `at` on that passes the test, or `end`.
pub fn first_from<F: Fn(usize) -> bool>(at: usize, end: usize, test: &F) -> usize
    ghost meets: { ℕ → Bool }
    requires in_order { at ≤ end }
    requires tells { Tells (F.pre test.now) (F.post test.now) meets at end }
    ensures { FirstFrom meets at end result }
{
    for i in at..end {
        if test(i) {
            return i;
        }
    }
    end
}

// The same, where the blocks of N places before it are passed at once.
pub fn first_by_blocks<const N: usize, F: Fn(usize) -> bool>(
    at: usize,
    end: usize,
    test: &F,
) -> usize
    ghost meets: { ℕ → Bool }
    requires some { 0 < N }
    requires in_order { at ≤ end }
    requires tells { Tells (F.pre test.now) (F.post test.now) meets at end }
    ensures { FirstFrom meets at end result }
{
    let i = past_blocks::<N, F>(at, end, test);
    first_from::<F>(i, end, test)
}

// Whether no place before `end` passes the test, by blocks of N places, of which the last two may overlap.
pub fn none_before<const N: usize, F: Fn(usize) -> bool>(end: usize, test: &F) -> bool
    ghost meets: { ℕ → Bool }
    requires some { 0 < N }
    requires in_bounds { N ≤ end }
    requires tells { Tells (F.pre test.now) (F.post test.now) meets 0 end }
    ensures { NoneBefore meets end result }
{
    let last = end - N;
    for i in (0..last).step_by(N) {
        if any_among::<N, F>(i, test) {
            return false;
        }
    }
    !any_among::<N, F>(last, test)
}

// The same by four blocks, which may overlap. It makes no branch.
pub fn none_in_four<const N: usize, F: Fn(usize) -> bool>(end: usize, test: &F) -> bool
    ghost meets: { ℕ → Bool }
    requires fits { N + N < 2 ^ 64 }
    requires in_bounds { (N ≤ end) × (end ≤ 4 * N) }
    requires tells { Tells (F.pre test.now) (F.post test.now) meets 0 end }
    ensures { NoneBefore meets end result }
{
    let from = end - N;
    let a = any_among::<N, F>(0, test);
    let b = any_among::<N, F>(N.min(from), test);
    let c = any_among::<N, F>((N + N).min(from), test);
    let d = any_among::<N, F>(from, test);
    !((a | b) | (c | d))
}
