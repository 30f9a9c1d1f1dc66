// C-21: the whole grouping call: the refusals, then the text, then the answer.
//   group_read     checks the source, and writes the codes of its tokens into the scratch
//   group_open     from the last code to the first: puts `(` where operations start
//   group_close    from the first to the last: puts `)` where they end, and writes the text
#![tactic(auto)]

ghost use Rattle.std.specs.Prelude.{length};
ghost use Rattle.group_rules.specs.Answered.{GroupAnswered};
ghost use Rattle.group.specs.Ran.{GroupWritten, GroupRan};

use group_rules::{GroupAnswer, GroupRefusal};
use rules::Refusal;

// The bytes of scratch for each of the source's, beside 256.
const GROUP_SCRATCH: usize = 12;

// The source's text goes to the output, and zeros after it, if it has one and it fits.
fn write_group(source: &[u8], output: &mut [u8], scratch: &mut [u8]) -> Result<usize, GroupRefusal>
    ensures { GroupWritten source.now (length output.old) (length scratch.old) result output.new }
{
    answer::test_length(source)?;
    answer::test_bytes(source, GROUP_SCRATCH, scratch.len())?;
    let n = group_read::read(source, scratch)?;
    let from = group_open::open_all(scratch, n);
    let length = group_close::close_all(scratch, output, from, 3 * n);
    if output.len() < length {
        return Err(Refusal::OutputShort(length).into());
    }
    buffer::finish(output, length);
    Ok(length)
}

// Refused, the output is cleared; the scratch is in any case.
fn run_group(source: &[u8], output: &mut [u8], scratch: &mut [u8]) -> Result<usize, GroupRefusal>
    ensures { GroupRan source.now (length output.old) (length
        scratch.old) result output.new scratch.new }
{
    let outcome = write_group(source, output, scratch);
    if outcome.is_err() {
        buffer::zero(output);
    }
    buffer::zero(scratch);
    outcome
}

// The whole call, with its answer in numbers.
pub fn group_call(source: &[u8], output: &mut [u8], scratch: &mut [u8]) -> GroupAnswer
    ensures { GroupAnswered source.now (length output.old) (length
        scratch.old) result output.new scratch.new }
{
    run_group(source, output, scratch).into()
}
