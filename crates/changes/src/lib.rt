// The changes that turn a source into its text: each replaces one gap.
#![tactic(auto)]

ghost use Rattle.std.specs.Prelude.{◌+◌, ◌<◌, ◌≤◌, ◌^◌, length, drop};
ghost use Rattle.utf8.specs.Unicode.{decode};
ghost use Rattle.gaps.specs.Gaps.{gap, Alike};
ghost use Rattle.changes.specs.Changes.{change_at};
ghost use Rattle.blocks.specs.Blocks.{NoneAmong};
ghost use Rattle.changes.specs.Passing.{differ_at, Behind, LastKept, Passed, BlockPassed};
ghost use Rattle.changes.specs.Writing.{Noted, GapPair, NotedGap, Written};

// At the byte `at` of the source, `removed` bytes give way to the `put` bytes at the byte `from` of the text.
#[derive(Clone, Copy)]
pub struct Change {
    pub at: usize,
    pub removed: usize,
    pub from: usize,
    pub put: usize,
}

// Writes the entry n of a list, if it has room for it.
fn note(list: &mut [u64], n: usize, c: Change)
    requires { n < 2 ^ 61 }
    ensures { Noted list.old list.new n c }
{
    let k = n * 4;
    if k + 4 <= list.len() {
        list[k..k + 4].copy_from_slice(&[
            c.at as u64,
            c.removed as u64,
            c.from as u64,
            c.put as u64,
        ]);
    }
}

// Writes the change of one gap, if it is one, as the entry n of a list, and gives the number of entries after it.
fn note_gap(source: &[u8], text: &[u8], list: &mut [u64], n: usize, c: Change) -> usize
    requires { GapPair source.now text.now n c }
    ensures { NotedGap list.old list.new n (change_at c.at c.from
        (gap (decode (drop c.at source.now)))
        (gap (decode (drop c.from text.now)))) result }
{
    if check::same(
        &source[c.at..c.at + c.removed],
        &text[c.from..c.from + c.put],
    ) {
        return n;
    }
    note(list, n, c);
    n + 1
}

// Whether the first 16 bytes of both differ, or one is not ASCII.
fn differ_among(source: &[u8], text: &[u8]) -> bool
    requires source_bound { 16 ≤ length source.now }
    requires text_bound { 16 ≤ length text.now }
    ensures { NoneAmong (differ_at source.now text.now) 0 16 result }
{
    blocks::any_among::<16, _>(0, &|k| (source[k] != text[k]) | (127 < source[k]))
}

// k behind a kept byte, else n.
fn behind(b: u8, n: u8, k: u8) -> u8
    ensures { Behind b n k result }
{
    if gaps::is_gap_byte(b) { n } else { k }
}

// How many of the 16 bytes from `at` on stand up to and with the last kept one.
// kept: 0 is a count here, no byte, and an Option of it would be a branch, which stops the vector code
fn last_kept(s: &[u8], at: usize) -> u8
    requires { at + 16 ≤ length s.now }
    ensures { LastKept s.now at result }
{
    let mut n = 0;
    for k in 0..16u8 {
        n = behind(s[at + k as usize], n, k + 1);
    }
    n
}

// kept: a place in each text, here and in the next, and no slices from there on: the definitions say by places how far both
// are the same, and each law of a caller would have to lead from the rest of a text back to it

// How many of the next 16 bytes are the same in both, up to and with a kept one; None if they differ, or none is kept.
#[tactic(auto, using(crate::proofs::PassLaws::block_some))]
fn same_block(source: &[u8], i: usize, text: &[u8], j: usize) -> Option<usize>
    requires i_in_bounds { i ≤ length source.now }
    requires j_in_bounds { j ≤ length text.now }
    ensures { BlockPassed source.now i text.now j result }
{
    if source.len() - i < 16 || text.len() - j < 16 || differ_among(&source[i..], &text[j..]) {
        return None;
    }
    match last_kept(source, i) {
        0 => None,
        n => Some(n as usize),
    }
}

// How many bytes are the same in both from there on, a block at a time. They end behind a kept one, so no gap is cut.
fn same_run(source: &[u8], i: usize, text: &[u8], j: usize) -> usize
    requires i_in_bounds { i ≤ length source.now }
    requires j_in_bounds { j ≤ length text.now }
    ensures { Passed source.now i text.now j result }
{
    let mut k = 0;
    // kept: how far a step goes is what `same_block` finds, 1 to 16 bytes, which neither a range nor `chunks` gives
    while let Some(n) = same_block(source, i + k, text, j + k) {
        k += n;
    }
    k
}

// Writes the changes over the front of a list, those that fit, and gives their number.
pub fn write_changes(source: &[u8], text: &[u8], list: &mut [u64]) -> usize
    requires { Alike source.now text.now }
    ensures { Written source.now text.now list.old list.new result }
{
    let mut n = 0;
    let mut i = 0;
    let mut j = 0;
    let mut a = gaps::gap_end(source, 0);
    let mut b = gaps::gap_end(text, 0);
    // kept: the next places are what `gap_end` and `same_run` find in each of two texts, of two lengths: no range gives
    // them, and an iterator of our own would hold the same four places
    loop {
        n = note_gap(
            source,
            text,
            list,
            n,
            Change {
                at: i,
                removed: a - i,
                from: j,
                put: b - j,
            },
        );
        if source.len() <= a {
            return n;
        }
        let size = utf8::size_at(source, a);
        let k = same_run(source, a + size, text, b + size);
        i = a + size + k;
        j = b + size + k;
        a = gaps::gap_end(source, i);
        b = gaps::gap_end(text, j);
    }
}
