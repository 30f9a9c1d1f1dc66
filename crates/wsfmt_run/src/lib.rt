// What the program does: from the bytes that it read to the bytes that it writes.
#![tactic(auto)]

ghost use Rattle.std.specs.Prelude.{◌≤◌, length};
ghost use Rattle.buffer.specs.Buffer.{Wrote};
ghost use Rattle.wsfmt_run.specs.Program.{max_input, refusal, Printed};
ghost use Rattle.wsfmt_run.specs.Steps.{Called};

use call::Request;
use rules::{Formatted, OptionNumbers, Refusal, Strengths};

// The bytes that the program takes, and those that it has for the text.
pub const MAX_INPUT: usize = 4096;

pub const MAX_TEXT: usize = 16384;

// Writes `refused N at P` and LF over the front of out, and gives its length.
// kept: numbers, since the program's own limit gives `refused 1 at 4096`, and `Refusal::SourceTooLong` has 1048576
fn put_refusal(out: &mut [u8], number: u64, place: u64) -> usize
    ensures { Wrote out.old out.new (refusal number place) result }
{
    let a = buffer::append(out, 0, b"refused ");
    let b = decimal::put_decimal(out, a, number);
    let c = buffer::append(out, b, b" at ");
    let d = decimal::put_decimal(out, c, place);
    buffer::append(out, d, b"\n")
}

// The call, with the default options.
fn format_default(source: &[u8], output: &mut [u8; MAX_TEXT]) -> Result<Formatted, Refusal>
    requires { length source.now ≤ max_input }
    ensures { Called source.now output.new (length output.old) result }
{
    let mut scratch = [0u8; call::FORMAT_SCRATCH * MAX_INPUT + 256];
    let strengths = Strengths::BUILT_IN;
    let request = Request {
        source,
        indent: b"  ",
        numbers: OptionNumbers::DEFAULTS,
        strengths: &strengths.table,
    };
    call::format(request, output, &mut [], &mut scratch)
}

// Writes the text of the source, or its refusal, over the front of output and zeros after it, and gives its length.
pub fn print(source: &[u8], output: &mut [u8; MAX_TEXT]) -> usize
    ensures { Printed source.now output.new result }
{
    if MAX_INPUT < source.len() {
        buffer::zero(output);
        return put_refusal(output, 1, MAX_INPUT as u64);
    }
    match format_default(source, output) {
        Ok(text) => text.length,
        Err(why) => put_refusal(output, why.number(), why.place()),
    }
}
