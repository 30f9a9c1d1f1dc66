// One line of the source, of any kind.
#![tactic(auto)]

ghost use Rattle.std.specs.Prelude.{◌≡◌, false, not, ◌&&◌, ◌+◌, ◌≤◌, length, take};
ghost use Rattle.utf8.specs.Unicode.{encode, decode, WellFormed};
ghost use Rattle.rules.specs.Lines.{as_str};
ghost use Rattle.rules.specs.Line.{protects, in_block};
ghost use Rattle.rules.specs.Options.{Options};
ghost use Rattle.rules.specs.Refusals.{max_source};
ghost use Rattle.rules.specs.Scan.{classify};
ghost use Rattle.rules.specs.Spacing.{respaced};
ghost use Rattle.rules.specs.ClassBytes.{class_bytes};
ghost use Rattle.rules.specs.declared.Carry.{Carry};
ghost use Rattle.basics.specs.Closers.{Closers};
ghost use Rattle.brackets.specs.Stack.{Nested};
ghost use Rattle.line.specs.Scratch.{stack_at};
ghost use Rattle.line.specs.Holds.{Classes, Ready, Stepped, Uses, TrimmedLine, ShownPart, kept_by, part_of};
ghost use Rattle.line.specs.Lone.{is_lone};
ghost use Rattle.place.specs.Placing.{spaced_by};
ghost use Rattle.step.specs.Going.{marker_in, is_kept, is_alone, SolidLine, Marks, LineRoom, Goes, Went};
ghost use Rattle.step.specs.Going.{BracketsCounted, PutOn, after_line, LineScanned, any_line_by, ignore_of};
ghost use Rattle.step.specs.Going.{EndsOutside};

use brackets::Nesting;
use line::formatter::{Formatter, Prev, prev_of};
use line::indent::LineIndent;
use line::kept::Kept;
use line::scratch::{RECLASSED, RESPACED, STACK};
use line::style::{Setup, Style};
use place::Placing;
use rules::class_byte::LINE_COMMENT;
use rules::{Carry, Ignore};

// A marker in the line's comment: one that stands alone, or one with code before it.
#[derive(Clone, Copy, PartialEq, Eq)]
pub enum Marker {
    Alone,
    AfterCode,
}

// The line that goes on: the source's own, or the respaced one, `len` bytes in scratch; where its class bytes start,
// and what it leaves open.
// kept: the new form is no plainer: of both lines all of `len`, `class_at` and `carry` are used, so that an enum would
// hold the three twice
#[derive(Clone, Copy)]
pub struct Going {
    pub own: bool,
    pub len: usize,
    pub class_at: usize,
    pub carry: Carry,
}

// What a line leaves open, and its marker.
#[derive(Clone, Copy)]
pub struct Scanned {
    pub after: Carry,
    pub marker: Option<Marker>,
}

// What a line of code is formatted with: the style, the unit of the scratch's regions, whether the line is a marker,
// and how it goes on.
#[derive(Clone, Copy)]
pub struct LineSetup {
    pub style: Style,
    pub unit: usize,
    pub marker: bool,
    pub going: Going,
}

// A line that was put into the text: the record that `place` gives, its leading closers, what is open after these
// popped, and what the next line asks of it.
#[derive(Clone, Copy)]
pub struct Put {
    pub st: Formatter,
    pub closers: usize,
    pub left: Nesting,
    pub own: Prev,
}

// Spacing: the source's own line goes on if it is spaced already, else the respaced one in scratch, classified anew.
fn go_on(line: &[u8], scratch: &mut [u8], unit: usize, after: Carry) -> Going
    requires well_formed { WellFormed line.now }
    requires line_room { LineRoom scratch.old unit (length line.now) }
    requires classes { Classes Carry.Code line.now scratch.old 0 after }
    ensures { Went line.now scratch.old scratch.new unit result }
{
    let n = line.len();
    let kept = spacing::spaced_to(line, &scratch[..n]);
    if kept == n {
        return Going {
            own: true,
            len: n,
            class_at: 0,
            carry: after,
        };
    }
    let at = RESPACED * unit;
    let (front, out) = scratch.split_at_mut(at);
    let len = spacing::normalize_from(line, &front[..n], out, kept);
    let class_at = RECLASSED * unit;
    let carry = scan::classify_at(scratch, at, len, class_at);
    Going {
        own: false,
        len,
        class_at,
        carry,
    }
}

// Its brackets after its leading closers, which popped already.
fn count_going(
    line: &[u8],
    scratch: &mut [u8],
    unit: usize,
    g: Going,
    closers: usize,
    left: Nesting,
) -> Nesting
    requires well_formed { WellFormed line.now }
    requires line_room { LineRoom scratch.old unit (length line.now) }
    requires goes { Goes line.now scratch.old unit g }
    requires closers { Closers (encode (respaced (decode line.now))) closers }
    requires line_bound { left.depth + length line.now ≤ unit }
    requires nested { Nested scratch.old (stack_at unit) left }
    ensures { BracketsCounted (respaced (decode line.now)) scratch.old
        scratch.new (stack_at unit) left (length line.now) result }
{
    let base = STACK * unit;
    if g.own {
        brackets::scan_brackets(line, scratch, g.class_at, base, left, closers)
    } else {
        let at = RESPACED * unit;
        brackets::scan_brackets_at(scratch, at, g.len, g.class_at, base, left, closers)
    }
}

// The line that goes on, put into the text.
fn put_going<'a>(
    line: &'a [u8],
    scratch: &'a [u8],
    k: LineSetup,
    indent: LineIndent<'_>,
    model: &[u8],
    out: &mut [u8],
    st: Formatter,
) -> Put
    requires ready { Ready st scratch.now k.unit (length line.now) }
    requires solid_line { SolidLine line.now }
    requires goes { Goes line.now scratch.now k.unit k.going }
    ensures { PutOn k.marker (respaced (decode line.now)) indent.entry.bytes.now k.style
        model.now (length line.now) k.unit st out.old scratch.now result
        out.new }
{
    let g = k.going;
    let at = RESPACED * k.unit;
    let l = spacing::line_that_goes_on(line, scratch, g.own, at, g.len);
    let class = &scratch[g.class_at..g.class_at + g.len];
    let closers = brackets::leading_closers(l);
    let base = STACK * k.unit;
    let left = brackets::pop_closers(scratch, base, st.nesting, closers);
    let own = prev_of(l);
    let how = Placing {
        style: k.style,
        closers,
        levels: left.levels,
        own,
        marker: k.marker,
    };
    let st = place::place_line(l, class, indent, how, model, out, st);
    Put {
        st,
        closers,
        left,
        own,
    }
}

// What a marker protects.
fn ignore_of(marker: bool) -> Ignore
    ensures { result ≡ ignore_of marker }
{
    if marker {
        Ignore::NextLine
    } else {
        Ignore::Nothing
    }
}

// The record after a line that was put into the text, with the brackets `deep` open, that protects `ignore` and leaves
// `carry` open.
fn after_line(p: Put, deep: Nesting, ignore: Ignore, carry: Carry) -> Formatter
    ensures { result ≡ after_line p deep ignore carry }
{
    Formatter {
        nesting: deep,
        blank: false,
        prev: p.own,
        ignore,
        carry,
        ..p.st
    }
}

// A line of code that is not protected, spaced.
fn spaced_line(
    line: &[u8],
    k: LineSetup,
    indent: LineIndent<'_>,
    model: &[u8],
    out: &mut [u8],
    scratch: &mut [u8],
    st: Formatter,
) -> Formatter
    requires ready { Ready st scratch.old k.unit (length line.now) }
    requires solid_line { SolidLine line.now }
    requires marks { Marks k.marker line.now }
    requires goes { Goes line.now scratch.old k.unit k.going }
    ensures { (o : Options) → Uses o indent.entry.bytes.now k.style → Stepped
        (spaced_by k.marker (respaced (decode line.now)) o) (length line.now) k.unit
        model.now (as_str k.style.ending) st out.old scratch.old result
        out.new scratch.new }
{
    let p = put_going(line, scratch, k, indent, model, out, st);
    let deep = count_going(line, scratch, k.unit, k.going, p.closers, p.left);
    after_line(p, deep, ignore_of(k.marker), k.going.carry)
}

// Whether a line ends in no `//` comment, which would go on to its end; so it has none. Of an empty line it is not
// said.
fn ends_outside(class: &[u8]) -> bool
    ensures { EndsOutside class.now result }
{
    matches!(class, [.., k] if *k != LINE_COMMENT)
}

// kept: line and class are not one struct: no plainer, since of a struct that holds lent slices the contracts say
// `k.entry.line.now` (tried), and what it would say of both is one clause of `marker_in` alone

// The marker of a line with its class bytes.
fn marker_in(line: &[u8], class: &[u8]) -> Option<Marker>
    requires well_formed { WellFormed line.now }
    requires class_value { class.now ≡ class_bytes (classify Carry.Code line.now) }
    ensures { result ≡ marker_in (decode line.now) }
{
    if ends_outside(class) {
        return None;
    }
    let e = scan::code_end(class);
    if !format::marker::is_marker(&line[e..]) {
        None
    } else if format::marker::has_code(&line[..e]) {
        Some(Marker::AfterCode)
    } else {
        Some(Marker::Alone)
    }
}

// Whether a marker is pending.
fn protects_next(ignore: Ignore) -> bool
    ensures { result ≡ protects ignore }
{
    ignore != Ignore::Nothing
}

// Whether the line is kept as written: a marker is pending, or one stands after its code.
fn is_kept(pending: Ignore, marker: Option<Marker>) -> bool
    ensures { result ≡ is_kept pending marker }
{
    marker == Some(Marker::AfterCode) || protects_next(pending)
}

// Whether a marker stands alone.
fn is_alone(marker: Option<Marker>) -> bool
    ensures { result ≡ is_alone marker }
{
    marker == Some(Marker::Alone)
}

// The line's class bytes go to the front of scratch.
fn scan_line(line: &[u8], scratch: &mut [u8]) -> Scanned
    requires well_formed { WellFormed line.now }
    requires line_in_bounds { length line.now ≤ length scratch.old }
    requires line_len_bound { length line.now ≤ max_source }
    ensures { LineScanned line.now scratch.old scratch.new result }
{
    let n = line.len();
    let after = scan::classify(line, Carry::Code, &mut scratch[..n]);
    let marker = marker_in(line, &scratch[..n]);
    Scanned { after, marker }
}

// Whether the line is one bracket that no marker protects.
fn goes_alone(line: &[u8], pending: Ignore) -> bool
    ensures { result ≡ (is_lone line.now && not (protects pending)) }
{
    line::lone::is_lone(line) && !protects_next(pending)
}

// `kept_line`, with a copy of the record for the call: st itself is then never lent, and is not copied in memory on other
// ways. In a function of its own the copies are made ready on this way alone.
fn keep<'a>(
    raw: &'a [u8],
    line: &'a [u8],
    k: Kept,
    model: &[u8],
    out: &mut [u8],
    scratch: &mut [u8],
    st: Formatter,
) -> Formatter
    requires ready { Ready st scratch.old k.unit (length raw.now) }
    requires well_formed { WellFormed raw.now }
    requires trimmed_line { TrimmedLine raw.now line.now }
    requires classes { Classes st.carry (part_of st.carry raw.now line.now) scratch.old 0 k.after }
    requires shown_part { ShownPart raw.now k.shown }
    ensures { Stepped (kept_by (decode (take k.shown raw.now)) (decode raw.now))
        (length raw.now) k.unit model.now (as_str k.ending) st
        out.old scratch.old result out.new scratch.new }
{
    let before = st;
    let kept = line::kept::kept_line(raw, line, k, model, out, scratch, before);
    kept
}

// A line that starts in code and is not one of a protected block.
fn code_line(
    raw: &[u8],
    indent: LineIndent<'_>,
    setup: Setup,
    model: &[u8],
    out: &mut [u8],
    scratch: &mut [u8],
    st: Formatter,
) -> Formatter
    requires ready { Ready st scratch.old setup.unit (length raw.now) }
    requires carry_value { st.carry ≡ Carry.Code }
    requires ignore_value { in_block st.ignore ≡ false }
    requires well_formed { WellFormed raw.now }
    ensures { (o : Options) → Uses o indent.entry.bytes.now setup.style → Stepped
        (any_line_by o (decode raw.now)) (length raw.now) setup.unit model.now
        (as_str setup.style.ending) st out.old scratch.old result out.new
        scratch.new }
{
    let tail = utf8::trim_end(raw);
    let start = utf8::trim_start(&raw[..tail]);
    if start == tail {
        return line::kept::blank_line(model, out, setup.style.ending, st);
    }
    let line = &raw[start..tail];
    if goes_alone(line, st.ignore) {
        return line::lone::lone_line(line, indent, setup, model, out, scratch, st);
    }
    let s = scan_line(line, scratch);
    if is_kept(st.ignore, s.marker) {
        let k = Kept {
            shown: raw.len(),
            after: s.after,
            ending: setup.style.ending,
            unit: setup.unit,
        };
        return keep(raw, line, k, model, out, scratch, st);
    }
    let k = LineSetup {
        style: setup.style,
        unit: setup.unit,
        marker: is_alone(s.marker),
        going: go_on(line, scratch, setup.unit, s.after),
    };
    spaced_line(line, k, indent, model, out, scratch, st)
}

// One line, of any kind.
pub fn line_step(
    raw: &[u8],
    indent: LineIndent<'_>,
    setup: Setup,
    model: &[u8],
    out: &mut [u8],
    scratch: &mut [u8],
    st: Formatter,
) -> Formatter
    requires ready { Ready st scratch.old setup.unit (length raw.now) }
    requires well_formed { WellFormed raw.now }
    ensures { (o : Options) → Uses o indent.entry.bytes.now setup.style → Stepped
        (any_line_by o (decode raw.now)) (length raw.now) setup.unit model.now
        (as_str setup.style.ending) st out.old scratch.old result out.new
        scratch.new }
{
    if line::kept::is_raw(line::kept::in_block(st.ignore), st.carry) {
        // A copy, as in `code_line`.
        let before = st;
        let ending = setup.style.ending;
        let after = line::kept::raw_line(raw, ending, model, out, scratch, setup.unit, before);
        return after;
    }
    if raw.is_empty() && line::kept::adds_nothing(st.blank, st.text.last) {
        return st;
    }
    code_line(raw, indent, setup, model, out, scratch, st)
}
