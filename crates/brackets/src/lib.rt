// Brackets: leading closers, and the stack of open brackets in scratch, ENTRY bytes for each: the first one's lowest
// bit tells whether it added a level, its other bits and the two bytes after it are the source line of the opener.
#![tactic(auto)]

ghost use Rattle.std.specs.Prelude.{◌≡◌, not, ◌||◌, ◌+◌, ◌-◌, ◌*◌, ◌≤◌, length, drop};
ghost use Rattle.blocks.specs.Blocks.{NoneFrom};
ghost use Rattle.buffer.specs.Buffer.{part};
ghost use Rattle.rules.specs.Basics.{choose};
ghost use Rattle.rules.specs.Scan.{cell};
ghost use Rattle.rules.specs.ClassBytes.{class_of, cells_of};
ghost use Rattle.rules.specs.Brackets.{push, pop, bracket_step, scan_brackets, open_lines};
ghost use Rattle.basics.specs.Closers.{Closers};
ghost use Rattle.brackets.specs.Stack.{adds_of, entry_at, entry_size, stacked, Nested, Popped, EntryRoom, EntryPut};
ghost use Rattle.brackets.specs.Stack.{StackRoom, Turned, StackFits, ScanFits, BracketsDone, may_turn, turns_at};
ghost use Rattle.brackets.specs.Stack.{line_at, Listed, opened_by};

mod turns;

use basics::{is_closer, is_opener};
use blocks::bytes::Passing;
use blocks::lanes;
use rules::class_byte::CODE;
use turns::{Turns, may_turn};

// The bytes of an entry.
pub const ENTRY: usize = 3;

// How many brackets are open, how many of them added a level, and the number of the source line that is read. The stack
// itself lies in scratch.
#[derive(Clone, Copy, Default)]
pub struct Nesting {
    pub depth: usize,
    pub levels: usize,
    pub line: usize,
}

// The same within a line. Its net added count is the levels less from; esc tells whether the next character is escaped.
#[derive(Clone, Copy)]
pub struct Tally {
    pub nesting: Nesting,
    pub from: usize,
    pub esc: bool,
}

// How many of the line's first bytes are closers.
pub fn leading_closers(line: &[u8]) -> usize
    ensures { Closers line.now result }
{
    blocks::first_from(0, line.len(), &|i| !is_closer(line[i]))
}

// 1 for an entry that added a level, else 0; of its first byte.
fn level_of(first: u8) -> usize
    ensures { result ≡ choose (adds_of first) 1 0 }
{
    usize::from(first % 2 != 0)
}

// The line of the entry that stands at p.
fn read_line(scratch: &[u8], p: usize) -> usize
    requires { p + entry_size ≤ length scratch.now }
    ensures { result ≡ (entry_at scratch.now p).line }
{
    let upper = usize::from(scratch[p] / 2);
    upper * 65536 + usize::from(scratch[p + 1]) + usize::from(scratch[p + 2]) * 256
}

// Writes an entry at p.
fn put_entry(stack: &mut [u8], p: usize, adds: bool, line: usize)
    requires { EntryRoom stack.old p line }
    ensures { EntryPut stack.old p adds line stack.new }
{
    let q = line / 256;
    stack[p] = (usize::from(adds) + 2 * (q / 256)) as u8;
    stack[p + 1] = (line % 256) as u8;
    stack[p + 2] = (q % 256) as u8;
}

// The n leading closers of a line: each pops any opener, with the level that it added, and on an empty stack does
// nothing.
pub fn pop_closers(scratch: &[u8], base: usize, b: Nesting, n: usize) -> Nesting
    requires { Nested scratch.now base b }
    ensures { Popped scratch.now base b n result }
{
    let depth = b.depth.saturating_sub(n);
    let mut levels = b.levels;
    for i in (depth..b.depth).rev() {
        levels -= level_of(scratch[base + ENTRY * i]);
    }
    Nesting { depth, levels, ..b }
}

// An opener: it adds a level only while the net added count is at most 0.
fn push(stack: &mut [u8], t: Tally) -> Tally
    requires { StackRoom stack.old t }
    ensures { Turned push stack.old t stack.new result }
{
    let adds = t.nesting.levels <= t.from;
    put_entry(stack, ENTRY * t.nesting.depth, adds, t.nesting.line);
    Tally {
        nesting: Nesting {
            depth: t.nesting.depth + 1,
            levels: t.nesting.levels + usize::from(adds),
            ..t.nesting
        },
        esc: false,
        ..t
    }
}

// A line that is one opener, which adds a level.
pub fn open(scratch: &mut [u8], base: usize, b: Nesting) -> Nesting
    requires { StackFits scratch.old 0 1 base b }
    ensures { BracketsDone scratch.old scratch.new base b 1
        (opened_by b.line (stacked scratch.old base b.depth)) result }
{
    let (_, stack) = scratch.split_at_mut(base);
    let t = push(
        stack,
        Tally {
            nesting: b,
            from: b.levels,
            esc: false,
        },
    );
    t.nesting
}

// A closer: it takes any opener, with the level that it added, and on an empty stack does nothing.
fn pop(stack: &[u8], t: Tally) -> Tally
    requires { StackRoom stack.now t }
    ensures { Turned pop stack.now t stack.now result }
{
    if t.nesting.depth == 0 {
        return Tally { esc: false, ..t };
    }
    let depth = t.nesting.depth - 1;
    let level = level_of(stack[ENTRY * depth]);
    Tally {
        nesting: Nesting {
            depth,
            levels: t.nesting.levels - level,
            ..t.nesting
        },
        esc: false,
        ..t
    }
}

// Whether c changes nothing, whatever its class: it is not escaped, and neither a bracket nor a backslash. Most bytes
// are such, and their class is not looked at.
fn is_idle(c: u8, esc: bool) -> bool
    ensures { result ≡ not (esc || may_turn c) }
{
    !(esc | may_turn(c))
}

// Past the bytes that are none.
fn idle_to(line: &[u8], at: usize) -> usize
    requires { at ≤ length line.now }
    ensures { NoneFrom (turns_at line.now) at (length line.now) result }
{
    let turns = Passing {
        bytes: line,
        test: Turns,
    };
    lanes::first(&turns, at, line.len())
}

// A byte c of class k.
fn bracket_step(c: u8, k: u8, stack: &mut [u8], t: Tally) -> Tally
    requires { StackRoom stack.old t }
    ensures { Turned (λ o. bracket_step o (cell c (class_of k))) stack.old t
        stack.new result }
{
    if k != CODE {
        return t;
    }
    if t.esc {
        return Tally { esc: false, ..t };
    }
    if c == b'\\' {
        return Tally { esc: true, ..t };
    }
    if is_opener(c) {
        return push(stack, t);
    }
    if is_closer(c) {
        return pop(stack, t);
    }
    t
}

// Past the bytes that are none, if BLOCKS, else not on.
fn past_idle<const BLOCKS: bool>(line: &[u8], at: usize) -> usize
    requires { at ≤ length line.now }
    ensures { NoneFrom (turns_at line.now) at (length line.now) result }
{
    if BLOCKS { idle_to(line, at) } else { at }
}

// The brackets of a line with its class bytes, without its first `skip` bytes. With BLOCKS bytes that change nothing
// are passed many at once, which takes longer where most blocks have one that does.
fn scan<const BLOCKS: bool>(
    line: &[u8],
    class: &[u8],
    stack: &mut [u8],
    b: Nesting,
    skip: usize,
) -> Nesting
    requires { ScanFits line.now class.now stack.old b }
    ensures { BracketsDone stack.old stack.new 0 b (length line.now)
        (scan_brackets b.line (drop skip (cells_of line.now class.now))
        (stacked stack.old 0 b.depth)) result }
{
    let mut t = Tally {
        nesting: b,
        from: b.levels,
        esc: false,
    };
    let mut i = skip;
    // kept: a range is no plainer, since the place moves past all bytes that change nothing
    while i < line.len() {
        let c = line[i];
        if is_idle(c, t.esc) {
            i = past_idle::<BLOCKS>(line, i + 1);
            continue;
        }
        t = bracket_step(c, class[i], stack, t);
        i += 1;
    }
    t.nesting
}

// The brackets of a line, without its first `skip` bytes, whose class bytes stand in scratch from class_at on. The
// stack lies from base on.
pub fn scan_brackets(
    line: &[u8],
    scratch: &mut [u8],
    class_at: usize,
    base: usize,
    b: Nesting,
    skip: usize,
) -> Nesting
    requires { StackFits scratch.old class_at (length line.now) base b }
    ensures { BracketsDone scratch.old scratch.new base b (length line.now)
        (scan_brackets b.line (drop skip (cells_of line.now
        (part scratch.old class_at (class_at + length line.now))))
        (stacked scratch.old base b.depth)) result }
{
    let n = line.len();
    let (front, stack) = scratch.split_at_mut(base);
    scan::<true>(line, &front[class_at..class_at + n], stack, b, skip)
}

// The same of a line that stands in scratch itself, n bytes from line_at on: one that was respaced.
// Apart from the line step, which seldom needs it.
#[inline(never)]
pub fn scan_brackets_at(
    scratch: &mut [u8],
    line_at: usize,
    n: usize,
    class_at: usize,
    base: usize,
    b: Nesting,
    skip: usize,
) -> Nesting
    requires { (StackFits scratch.old class_at n base b) × (line_at + n ≤ base) }
    ensures { BracketsDone scratch.old scratch.new base b n
        (scan_brackets b.line (drop skip (cells_of (part scratch.old line_at (line_at + n))
        (part scratch.old class_at (class_at + n)))) (stacked scratch.old base b.depth)) result }
{
    let (front, stack) = scratch.split_at_mut(base);
    scan::<false>(
        &front[line_at..line_at + n],
        &front[class_at..class_at + n],
        stack,
        b,
        skip,
    )
}

// The line that stands at i in the list of open brackets: the oldest first, 0 after the newest.
fn line_at(scratch: &[u8], base: usize, depth: usize, i: usize) -> u64
    requires { base + entry_size * depth ≤ length scratch.now }
    ensures { result ≡ line_at scratch.now base depth i }
{
    if i < depth {
        return read_line(scratch, base + ENTRY * i) as u64;
    }
    0
}

// The lines of the open brackets, of which the stack has `count`, as many as the list has room for. Gives how many are
// open.
pub fn list_lines(scratch: &[u8], base: usize, count: usize, list: &mut [u64]) -> usize
    requires { base + entry_size * count ≤ length scratch.now }
    ensures { Listed (open_lines (stacked scratch.now base count)) (length list.old) result
        list.new }
{
    for (i, line) in list.iter_mut().enumerate() {
        *line = line_at(scratch, base, count, i);
    }
    count
}
