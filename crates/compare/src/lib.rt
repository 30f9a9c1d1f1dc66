// Where a text goes. With no model, to an output that may be too short. With a model, it is compared with that as it
// comes, and nothing of it is written: three bytes keep how many of its first bytes are the model's. A text is cut back
// by going on from a smaller place.
// kept: an empty model is the sign for none, here and up to crate step. An `Option` is no plainer: `Some` of an empty
// model would be a third case, to be compared, and each contract would say `option_copied model.entry` for `model.now`
#![tactic(auto)]

ghost use Rattle.std.specs.Prelude.{◌≡◌, [], ◌++◌, ◌+◌, ◌*◌, ◌<◌, ◌≤◌, ◌^◌, min, length, drop, replicate};
ghost use Rattle.buffer.specs.Pad.{spelled};
ghost use Rattle.compare.specs.Common.{common, Agreeing, EndsAlike, StartsAlike};
ghost use Rattle.compare.specs.Common.{cell_size, cell_of, CellPut, CellKept, Compared};
ghost use Rattle.compare.specs.Common.{LineAlike, Tells};
ghost use Rattle.compare.specs.Rows.{ending_of, written};

pub mod ending;

use blocks::bytes::Passing;
use blocks::lanes;
use blocks::others::Other;
use buffer::pad::Pad;
use ending::{ending_bytes, ending_len};
use rules::LineEnding;

// The bytes that keep how far the text agrees.
pub const CELL: usize = 3;

// The bytes that a short indent is written by.
const BLOCK: usize = 32;

// Past the blocks of 16 bytes that agree, of the n that both have.
// kept: (model, line, n), here, in the next two and in `alike`: tried as one closure and one function with its blocks:
// one or two instructions more a comparison
#[tactic(auto, using(crate::proofs::CommonLaws::agreeing_blocks))]
fn agree_blocks(model: &[u8], line: &[u8], n: usize) -> usize
    requires { n ≡ min (length line.now) (length model.now) }
    ensures { Agreeing model.now line.now n result }
{
    blocks::past_blocks::<16, _>(0, n, &|i| model[i] != line[i])
}

// Whether fewer than 16 bytes agree, told by their first 8 and their last 8. It is not told of fewer than 8.
#[tactic(auto, using(crate::proofs::CommonLaws::alike_blocks))]
fn alike_short(model: &[u8], line: &[u8], n: usize) -> bool
    requires n_value { n ≡ min (length line.now) (length model.now) }
    requires n_bound { n < 16 }
    ensures { EndsAlike model.now line.now n result }
{
    if n < 8 {
        return false;
    }
    blocks::none_before::<8, _>(n, &|i| model[i] != line[i])
}

// Whether the rest agrees too, where the first i of n bytes do: the last 16 are tested at once, and those before them
// once more. It is not told of a longer rest.
fn ends_alike(model: &[u8], line: &[u8], n: usize, i: usize) -> bool
    requires n_value { n ≡ min (length line.now) (length model.now) }
    requires agreeing { Agreeing model.now line.now n i }
    ensures { EndsAlike model.now line.now n result }
{
    if n < 16 {
        return alike_short(model, line, n);
    }
    if n - i > 16 {
        return false;
    }
    !blocks::any_among::<16, _>(n - 16, &|i| model[i] != line[i])
}

// How many of the first bytes of line are the model's.
fn agree(model: &[u8], line: &[u8]) -> usize
    ensures { result ≡ common model.now line.now }
{
    let n = line.len().min(model.len());
    let from = agree_blocks(model, line, n);
    if ends_alike(model, line, n, from) {
        return n;
    }
    blocks::first_from(from, n, &|i| model[i] != line[i])
}

// Whether the model, of at least 16 bytes, starts with n times b. A run of at most 16 is told without a branch: indents
// differ from line to line.
#[tactic(auto, using(crate::proofs::CommonLaws::run_first))]
fn run_alike(model: &[u8], b: u8, n: usize) -> bool
    requires { 16 ≤ length model.now }
    ensures { StartsAlike model.now (replicate n b) result }
{
    let others = Passing {
        bytes: model,
        test: Other { b },
    };
    n <= model.len() && n <= lanes::first_in::<16, _>(&others, 0, n.max(16))
}

// Whether the model starts with the indent, levels times over. It is told where that is of one kind of byte, and the
// model has 16.
#[tactic(auto, using(crate::proofs::WriterLaws::pad_some, crate::proofs::CommonLaws::starts_times))]
fn pad_alike(model: &[u8], pad: Pad<'_>) -> bool
    ensures { StartsAlike model.now (spelled pad.entry) result }
{
    let n = pad.len();
    if n == 0 {
        return true;
    }
    if model.len() < 16 {
        return false;
    }
    let b = pad.indent[0];
    buffer::all_are(pad.indent, b) && run_alike(model, b, n)
}

// The same of the indent, levels times over; no more turns than the model has bytes.
fn agree_levels(model: &[u8], pad: Pad<'_>) -> usize
    ensures { result ≡ common model.now (spelled pad.entry) }
{
    let n = pad.indent.len();
    if n == 0 {
        return 0;
    }
    let mut at = 0;
    for _ in 0..pad.levels {
        let k = agree(&model[at..], pad.indent);
        if k < n {
            return at + k;
        }
        at += n;
    }
    at
}

// The number kept.
// kept: tried as `from_le_bytes` here and `to_le_bytes` in `put_cell`: two or three instructions more a comparison
#[tactic(auto, using(crate::proofs::CellLaws::cell_read))]
fn read_cell(cell: &[u8]) -> usize
    requires { cell_size ≤ length cell.now }
    ensures { result ≡ cell_of cell.now }
{
    usize::from(cell[0]) + usize::from(cell[1]) * 256 + usize::from(cell[2]) * 65536
}

fn put_cell(cell: &mut [u8], n: usize)
    requires { cell_size ≤ length cell.old }
    ensures { CellPut cell.old n cell.new }
{
    let q = n / 256;
    cell[0] = (n % 256) as u8;
    cell[1] = (q % 256) as u8;
    cell[2] = (q / 256 % 256) as u8;
}

// Keeps that a text which reaches up to next agrees up to n. Where it agrees whole, the model's length is kept, so that
// nothing is written while it goes on so.
fn keep(cell: &mut [u8], model: usize, n: usize, next: usize)
    requires { cell_size ≤ length cell.old }
    ensures { CellKept cell.old model n next cell.new }
{
    if n < next {
        put_cell(cell, n);
        return;
    }
    if read_cell(cell) < next {
        put_cell(cell, model);
    }
}

// Whether n bytes agree, by blocks of which some may overlap.
#[tactic(auto, using(crate::proofs::CommonLaws::alike_blocks))]
fn alike(model: &[u8], line: &[u8], n: usize) -> bool
    requires { n ≡ min (length line.now) (length model.now) }
    ensures { EndsAlike model.now line.now n result }
{
    let differs = |i: usize| model[i] != line[i];
    if 64 < n {
        blocks::none_before::<64, _>(n, &differs)
    } else if 16 <= n {
        blocks::none_in_four::<16, _>(n, &differs)
    } else if 4 <= n {
        blocks::none_in_four::<4, _>(n, &differs)
    } else if n == 0 {
        true
    } else {
        blocks::none_in_four::<1, _>(n, &differs)
    }
}

// Whether the model has the line ending at the place at.
// kept: tried as `starts_with` of `ending_bytes` here, and as a copy of them in `put_ending`: 10 → 19 instructions of both
#[tactic(auto, unfolding(rules::specs::Lines::as_str))]
fn ending_alike(model: &[u8], at: usize, ending: Option<LineEnding>) -> bool
    requires { at + length (ending_of ending) ≤ length model.now }
    ensures { StartsAlike (drop at model.now) (ending_of ending) result }
{
    match ending {
        None => true,
        Some(LineEnding::Lf) => model[at] == b'\n',
        Some(LineEnding::Crlf) => model[at] == b'\r' && model[at + 1] == b'\n',
    }
}

// Compares the indent, levels times over, where all of the text before it agrees.
fn track_levels(model: &[u8], cell: &mut [u8], at: usize, pad: Pad<'_>) -> usize
    requires pad_bound { at + length (spelled pad) < 2 ^ 64 }
    requires model_nonzero { 0 < length model.now }
    ensures { Compared model.now cell.old cell.new at (spelled pad.entry) result }
{
    let next = at + pad.len();
    if cell.len() < CELL {
        return next;
    }
    if read_cell(cell) < at {
        return next;
    }
    let p = at.min(model.len());
    let n = agree_levels(&model[p..], pad);
    keep(cell, model.len(), at + n, next);
    next
}

// Compares line in the same way.
#[tactic(auto, using(crate::proofs::WriterLaws::length_once))]
fn track(model: &[u8], cell: &mut [u8], at: usize, line: &[u8]) -> usize
    requires line_bound { at + length line.now < 2 ^ 64 }
    requires model_nonzero { 0 < length model.now }
    ensures { Compared model.now cell.old cell.new at line.now result }
{
    let once = Pad {
        indent: line,
        levels: 1,
    };
    track_levels(model, cell, at, once)
}

// Whether all goes on as the model does: then nothing is to be kept.
#[tactic(auto, using(crate::proofs::WriterLaws::line_on))]
fn line_alike(
    model: &[u8],
    cell: &[u8],
    at: usize,
    ending: Option<LineEnding>,
    pad: Pad<'_>,
    line: &[u8],
) -> bool
    requires model_nonzero { 0 < length model.now }
    requires line_bound { at + length (written ending pad line.now) < 2 ^ 64 }
    ensures { LineAlike model.now cell.now at (written ending pad.entry line.now) result }
{
    let start = at + ending_len(ending);
    let from = start + pad.len();
    let next = from + line.len();
    if model.len() < next || cell.len() < CELL || read_cell(cell) < next {
        return false;
    }
    ending_alike(model, at, ending)
        && pad_alike(&model[start..], pad)
        && alike(&model[from..], line, line.len())
}

// Compares the line ending, the indent and the line.
fn track_line(
    model: &[u8],
    cell: &mut [u8],
    at: usize,
    ending: Option<LineEnding>,
    pad: Pad<'_>,
    line: &[u8],
) -> usize
    requires model_nonzero { 0 < length model.now }
    requires line_bound { at + length (written ending pad line.now) < 2 ^ 64 }
    ensures { Compared model.now cell.old cell.new at (written ending pad.entry line.now) result }
{
    if line_alike(model, cell, at, ending, pad, line) {
        return at + (ending_len(ending) + pad.len() + line.len());
    }
    let start = track(model, cell, at, ending_bytes(ending));
    let from = track_levels(model, cell, start, pad);
    track(model, cell, from, line)
}

// Writes n times the byte b from the place at on.
#[tactic(auto, using(crate::proofs::WriterLaws::run_put))]
fn put_run(out: &mut [u8], at: usize, n: usize, b: u8)
    requires { at + n ≤ length out.old }
    ensures { Compared [] out.old out.new at (replicate n b) (at + n) }
{
    buffer::fill(&mut out[at..at + n], b);
}

// Writes a line ending, for which there is room.
// kept: a copy of `ending_bytes` is slower, as `ending_alike` says
#[tactic(auto, unfolding(rules::specs::Lines::as_str))]
fn put_ending(out: &mut [u8], at: usize, ending: Option<LineEnding>)
    requires { at + length (ending_of ending) ≤ length out.old }
    ensures { Compared [] out.old out.new at (ending_of ending)
        (at + length (ending_of ending)) }
{
    match ending {
        None => {}
        Some(LineEnding::Lf) => put_run(out, at, 1, b'\n'),
        Some(LineEnding::Crlf) => {
            put_run(out, at, 1, b'\r');
            put_run(out, at + 1, 1, b'\n');
        }
    }
}

// Writes the indent, levels times over. A short one of one kind of byte is one block, what of it is not needed is
// written over later.
fn put_pad(out: &mut [u8], at: usize, pad: Pad<'_>)
    requires { at + length (spelled pad) ≤ length out.old }
    ensures { Compared [] out.old out.new at (spelled pad.entry)
        (at + length (spelled pad.entry)) }
{
    let n = pad.len();
    if n == 0 {
        return;
    }
    let b = pad.indent[0];
    if n <= BLOCK && out.len() - at >= BLOCK && buffer::all_are(pad.indent, b) {
        put_run(out, at, BLOCK, b);
        return;
    }
    buffer::append_indented(out, at, pad, b"");
}

// Writes what of the line ending, the indent and the line fits.
fn write_parts(
    out: &mut [u8],
    at: usize,
    ending: Option<LineEnding>,
    pad: Pad<'_>,
    line: &[u8],
) -> usize
    requires { at + length (written ending pad line.now) < 2 ^ 64 }
    ensures { Compared [] out.old out.new at (written ending pad.entry line.now) result }
{
    let start = buffer::append(out, at, ending_bytes(ending));
    buffer::append_indented(out, start, pad, line)
}

// Writes the line ending, the indent and the line.
fn write_line(
    out: &mut [u8],
    at: usize,
    ending: Option<LineEnding>,
    pad: Pad<'_>,
    line: &[u8],
) -> usize
    requires { at + length (written ending pad line.now) < 2 ^ 64 }
    ensures { Compared [] out.old out.new at (written ending pad.entry line.now) result }
{
    let start = at + ending_len(ending);
    let from = start + pad.len();
    let next = from + line.len();
    if out.len() < next {
        return write_parts(out, at, ending, pad, line);
    }
    put_ending(out, at, ending);
    put_pad(out, start, pad);
    buffer::append(out, from, line)
}

// The line goes behind a text that reaches up to at. Gives the next place.
// kept: (model, out, at) as three parameters: a struct of them with methods is no plainer. The text is cut back by
// going on from a smaller place, which text's own record keeps, so that the struct's place would be set anew for each
// line; and each method would also have to say that the model and the reference to out stay what they were
pub fn append(model: &[u8], out: &mut [u8], at: usize, line: &[u8]) -> usize
    requires { at + length line.now < 2 ^ 64 }
    ensures { Compared model.now out.old out.new at line.now result }
{
    if model.len() == 0 {
        return buffer::append(out, at, line);
    }
    track(model, out, at, line)
}

// The indent, levels times over, and the line go behind a text that reaches up to at. Gives the next place.
pub fn append_indented(model: &[u8], out: &mut [u8], at: usize, pad: Pad<'_>, line: &[u8]) -> usize
    requires { at + (length (spelled pad) + length line.now) < 2 ^ 64 }
    ensures { Compared model.now out.old out.new at (spelled pad.entry ++ line.now) result }
{
    append_line(model, out, at, None, pad, line)
}

// The same with a line ending before it, if there is one.
// kept: (ending, pad, line) as three parameters: tried as one struct, which goes through memory: 2.2 to 7.2 % more
// instructions of a call (declarations 4.5 %, deep nesting 7.2 %)
pub fn append_line(
    model: &[u8],
    out: &mut [u8],
    at: usize,
    ending: Option<LineEnding>,
    pad: Pad<'_>,
    line: &[u8],
) -> usize
    requires { at + length (written ending pad line.now) < 2 ^ 64 }
    ensures { Compared model.now out.old out.new at (written ending pad.entry line.now) result }
{
    if model.len() == 0 {
        return write_line(out, at, ending, pad, line);
    }
    track_line(model, out, at, ending, pad, line)
}

// Whether the first k bytes of a compared text are a beginning of the model.
pub fn begins(model: &[u8], out: &[u8], k: usize) -> bool
    ensures { Tells model.now out.now k result }
{
    if model.len() == 0 {
        return k == 0;
    }
    if out.len() < CELL {
        return false;
    }
    k <= read_cell(out)
}
