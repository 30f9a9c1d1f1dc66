// The whole formatting call: the refusals, then the text, then the answer.
#![tactic(auto)]

ghost use Rattle.std.specs.Prelude.{◌≡◌, length};
ghost use Rattle.call.specs.Tests.{tested_options};
ghost use Rattle.call.specs.Formatted.{RefusedCall};
ghost use Rattle.call.specs.Ran.{asked, Ran};
ghost use Rattle.call.specs.FormatAnswered.{FormatAnswered};

use options::FormatOptions;
use rules::{Answer, Formatted, OptionNumbers, Refusal};

pub mod assembly;

// The bytes of scratch for each of the source's, beside 256.
pub const FORMAT_SCRATCH: usize = 12;

// The largest ruler tab.
pub const MAX_RULER: usize = 16;

// What is asked of a call: the source, and the options as a host gives them.
#[derive(Clone, Copy)]
pub struct Request<'a> {
    pub source: &'a [u8],
    pub indent: &'a [u8],
    pub numbers: OptionNumbers,
    pub strengths: &'a [u8],
}

// Refusals 12, 13, 1, 2, 11, 3 and 4, in this order, of which 2 is that of the options; then the options.
pub fn test(
    request: Request<'_>,
    options: Result<FormatOptions, Refusal>,
    scratch: usize,
) -> Result<FormatOptions, Refusal>
    ensures { result ≡ tested_options request.entry.strengths.now request.entry.source.now options scratch }
{
    answer::test_strengths(request.strengths)?;
    answer::test_length(request.source)?;
    let options = options?;
    if MAX_RULER < options.ruler_tab {
        return Err(Refusal::RulerTooWide);
    }
    answer::test_bytes(request.source, FORMAT_SCRATCH, scratch)?;
    Ok(options)
}

// All buffers are cleared.
// kept: output, opened and scratch stay parameters of their own. A struct of the three is no plainer: it would hold
// three `&mut`, and each function that it is lent to would need a clause for each that its name stays.
fn refuse(
    output: &mut [u8],
    opened: &mut [u64],
    scratch: &mut [u8],
    why: Refusal,
) -> Result<Formatted, Refusal>
    ensures { RefusedCall why (length output.old) (length opened.old)
        (length scratch.old) result output.new opened.new scratch.new }
{
    buffer::zero(output);
    assembly::list_open(opened, scratch, 0, 0);
    Err(why)
}

// The call: the tests, then the text, which may turn out too long for the output. Refused, all buffers hold zeros.
pub fn format(
    request: Request<'_>,
    output: &mut [u8],
    opened: &mut [u64],
    scratch: &mut [u8],
) -> Result<Formatted, Refusal>
    ensures { Ran (asked request.entry (length output.old) (length opened.old) (length scratch.old))
        result output.new opened.new scratch.new }
{
    let table = options::strengths::read(request.strengths);
    let named = FormatOptions::from_numbers(request.indent, request.numbers, table);
    match test(request, named, scratch.len()) {
        Err(why) => refuse(output, opened, scratch, why),
        Ok(options) => assembly::format_with(request.source, options, output, opened, scratch),
    }
}

// The same, with its answer in numbers.
pub fn format_call(
    request: Request<'_>,
    output: &mut [u8],
    opened: &mut [u64],
    scratch: &mut [u8],
) -> Answer
    ensures { FormatAnswered (asked request.entry (length output.old) (length opened.old) (length scratch.old))
        result output.new opened.new scratch.new }
{
    format(request, output, opened, scratch).into()
}
