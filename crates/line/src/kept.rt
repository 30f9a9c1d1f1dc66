// Lines that go out as they are: inside a comment or a prefab, blank, protected.
// kept: `WellFormed` of a line stays a clause, here and in the crates above. A `&str` has it by its type, but a
// respaced line stands in scratch, which is lent as bytes: `from_utf8` would read each such line once more, and its
// unchecked form is unsafe. Each slice of a `&str` owes that no character is cut, and blocks are tested on its bytes
ghost use Rattle.std.specs.Prelude.{◌≡◌, not, ◌&&◌, ◌||◌, length, take};
ghost use Rattle.utf8.specs.Unicode.{decode, WellFormed};
ghost use Rattle.rules.specs.Lines.{as_str};
ghost use Rattle.rules.specs.Line.{in_block, in_code_now, block_after, protected_after};
ghost use Rattle.text.specs.Text.{is_first};
ghost use Rattle.line.specs.Holds.{Small, Ready, Stepped, Blanked, TrimmedLine, Classes, shown_len, part_of};
ghost use Rattle.line.specs.Holds.{ClosersOf, ShownPart, kept_by, raw_by};

use crate::formatter::{Formatter, prev_of};
use crate::scratch::STACK;
use format::else_line::LineFacts;
use rules::{Carry, Ignore, LineEnding};
use text::{Adding, Last};

// Whether an else can be joined to a line with these facts.
fn takes_else(facts: LineFacts) -> bool
    ensures { result ≡ (facts.brace && not facts.else_first) }
{
    facts.brace && !facts.else_first
}

// How much of a kept line is written: all of it, or, where it isn't protected and starts inside a comment, as far as
// its end is trimmed to.
fn shown_len(guarded: bool, carry: Carry, tail: usize, len: usize) -> usize
    ensures { result ≡ shown_len guarded carry tail len }
{
    if !guarded && matches!(carry, Carry::Block(_)) {
        tail
    } else {
        len
    }
}

// The part of a kept line that is scanned. line is raw trimmed.
fn scanned_part<'a>(carry: Carry, raw: &'a [u8], line: &'a [u8]) -> &'a [u8]
    ensures { result.now ≡ part_of carry raw.now line.now }
{
    if carry == Carry::Code { line } else { raw }
}

// The closers that pop first: a line that starts inside a comment or a prefab has none.
fn closers_of(carry: Carry, line: &[u8]) -> usize
    ensures { ClosersOf carry line.now result }
{
    if carry == Carry::Code {
        brackets::leading_closers(line)
    } else {
        0
    }
}

// Whether the line is one of a protected block.
pub fn in_block(ignore: Ignore) -> bool
    ensures { result ≡ in_block ignore }
{
    matches!(ignore, Ignore::Block(_))
}

// Whether a line goes out without being looked at: it is one of a protected block, or starts inside a comment or a
// prefab.
pub fn is_raw(guarded: bool, carry: Carry) -> bool
    ensures { result ≡ (guarded || not (in_code_now carry)) }
{
    guarded || carry != Carry::Code
}

// A block goes on while more brackets are open than before it.
fn block_after(earlier: usize, now: usize) -> Ignore
    ensures { result ≡ block_after earlier now }
{
    if earlier < now {
        Ignore::Block(earlier)
    } else {
        Ignore::Nothing
    }
}

// What is protected after a line that found `before` brackets open and leaves `now`.
fn protected_after(ignore: Ignore, before: usize, now: usize) -> Ignore
    ensures { result ≡ protected_after ignore before now }
{
    match ignore {
        Ignore::Nothing => Ignore::Nothing,
        Ignore::NextLine => block_after(before, now),
        Ignore::Block(earlier) => block_after(earlier, now),
    }
}

// Of a line that is kept: how many of its bytes are written, what it leaves open, the ending that the text's lines get,
// and the unit of the scratch's regions.
#[derive(Clone, Copy)]
pub struct Kept {
    pub shown: usize,
    pub after: Carry,
    pub ending: LineEnding,
    pub unit: usize,
}

// A line that is kept. line is raw trimmed; the class bytes of the part that is scanned stand at the front of scratch.
pub fn kept_line<'a>(
    raw: &'a [u8],
    line: &'a [u8],
    k: Kept,
    model: &[u8],
    out: &mut [u8],
    scratch: &mut [u8],
    st: Formatter,
) -> Formatter
    requires ready { Ready st scratch.old k.unit (length raw.now) }
    requires well_formed { WellFormed raw.now }
    requires trimmed_line { TrimmedLine raw.now line.now }
    requires classes { Classes st.carry (part_of st.carry raw.now line.now) scratch.old 0 k.after }
    requires shown_part { ShownPart raw.now k.shown }
    ensures { Stepped (kept_by (decode (take k.shown raw.now)) (decode raw.now))
        (length raw.now) k.unit model.now (as_str k.ending) st
        out.old scratch.old result out.new scratch.new }
{
    let shown = &raw[..k.shown];
    let facts = format::else_line::line_facts(shown);
    let how = Adding {
        ending: k.ending,
        drops: false,
        levels: 0,
        tail: facts.trimmed,
        joins: takes_else(facts),
    };
    let text = text::push_line(model, out, st.text, b"", shown, how);
    let closers = closers_of(st.carry, line);
    let base = STACK * k.unit;
    let left = brackets::pop_closers(scratch, base, st.nesting, closers);
    let part = scanned_part(st.carry, raw, line);
    let nesting = brackets::scan_brackets(part, scratch, 0, base, left, closers);
    Formatter {
        text,
        nesting,
        blank: false,
        prev: prev_of(line),
        ignore: protected_after(st.ignore, st.nesting.depth, nesting.depth),
        carry: k.after,
        ..st
    }
}

// A line of a protected block, or one that starts inside a comment or a prefab.
pub fn raw_line(
    raw: &[u8],
    ending: LineEnding,
    model: &[u8],
    out: &mut [u8],
    scratch: &mut [u8],
    unit: usize,
    st: Formatter,
) -> Formatter
    requires ready { Ready st scratch.old unit (length raw.now) }
    requires well_formed { WellFormed raw.now }
    ensures { Stepped (raw_by (in_block st.ignore) (decode raw.now)) (length raw.now) unit
        model.now (as_str ending) st out.old scratch.old result
        out.new scratch.new }
{
    let tail = utf8::trim_end(raw);
    let start = utf8::trim_start(&raw[..tail]);
    let line = &raw[start..tail];
    let part = scanned_part(st.carry, raw, line);
    let after = scan::classify(part, st.carry, &mut scratch[..part.len()]);
    let shown = shown_len(in_block(st.ignore), st.carry, tail, raw.len());
    let k = Kept {
        shown,
        after,
        ending,
        unit,
    };
    kept_line(raw, line, k, model, out, scratch, st)
}

// Whether a blank line changes nothing: it follows another, or stands before the first line.
pub fn adds_nothing(blank: bool, last: Last) -> bool
    ensures { result ≡ (blank || is_first last) }
{
    blank || text::is_first(last)
}

// Of blank lines in a row one is written, and none before the first line. A pending marker stays pending.
pub fn blank_line(model: &[u8], out: &mut [u8], ending: LineEnding, st: Formatter) -> Formatter
    requires { Small st }
    ensures { Blanked model.now (as_str ending) st out.old result out.new }
{
    if adds_nothing(st.blank, st.text.last) {
        return st;
    }
    let how = Adding {
        ending,
        drops: false,
        levels: 0,
        tail: 0,
        joins: false,
    };
    Formatter {
        text: text::push_line(model, out, st.text, b"", b"", how),
        blank: true,
        ..st
    }
}
