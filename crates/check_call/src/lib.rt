// Is this source formatted already? The whole call: the refusals, then the lines, compared with the source as they
// come, then the answer.
#![tactic(auto)]

ghost use Rattle.std.specs.Prelude.{◌≡◌, ◌≤◌, length};
ghost use Rattle.rules.specs.Options.{max_ruler};
ghost use Rattle.options.specs.Held.{options_in};
ghost use Rattle.lines.specs.Lines.{Passed};
ghost use Rattle.call.specs.Ran.{choices_in};
ghost use Rattle.check_call.specs.CheckCall.{Compares, Found, answer_of, checked_options, CheckedWith};
ghost use Rattle.check_call.specs.CheckAnswered.{choices_of, CheckAnswered};

use call::Request;
use compare::CELL;
use options::FormatOptions;
use rules::{Refusal, Strengths};

// What a check finds: whether the text would equal the source, and how many lines were read.
#[derive(Clone, Copy, PartialEq, Eq, Debug)]
pub struct Finding {
    pub yes: bool,
    pub read: usize,
}

// What a check comes to, in numbers for a host: whether the text would equal the source, 1 or 0, and how many lines
// were read.
#[repr(C)]
#[derive(Clone, Copy)]
pub struct CheckAnswer {
    pub refusal: u64,
    pub place: u64,
    pub formatted: u64,
    pub lines_read: u64,
}

impl From<Result<Finding, Refusal>> for CheckAnswer {
    ghost from_gives = { λ o a. a ≡ answer_of o };

    #[tactic(auto, unfolding(rules::specs::Basics::choose))]
    fn from(outcome: Result<Finding, Refusal>) -> CheckAnswer {
        match outcome {
            Ok(found) => CheckAnswer {
                refusal: 0,
                place: 0,
                formatted: found.yes as u64,
                lines_read: found.read as u64,
            },
            Err(why) => CheckAnswer {
                refusal: why.number(),
                place: why.place(),
                formatted: 0,
                lines_read: 0,
            },
        }
    }
}

// Whether a text of n bytes, compared with the source, is the source.
fn equals(source: &[u8], cell: &[u8], n: usize) -> bool
    ensures { Compares source.now cell.now n result }
{
    n == source.len() && compare::begins(source, cell, n)
}

// The lines of the source, compared with it, and the finish.
fn check_with(source: &[u8], options: FormatOptions, scratch: &mut [u8]) -> Finding
    requires passed { Passed source.now options.indent scratch.old }
    requires ruler_tab_bound { options.ruler_tab ≤ max_ruler }
    ensures { CheckedWith (options_in options) source.now result }
{
    let ending = call::assembly::ending_of(options.end_of_line, source);
    let style = call::assembly::style_of(options, ending);
    let indent = options.indent.as_bytes();
    let mut cell = [0u8; CELL];
    let lines = lines::read_lines(
        source,
        indent,
        style,
        true,
        Some(source),
        &mut cell,
        scratch,
    );
    let st = lines.st;
    let read = st.nesting.line;
    if lines.all {
        let last = call::assembly::has_last_ending(options.insert_final_newline, source);
        let n = text::end_text(source, &mut cell, st.text, ending, last);
        return Finding {
            yes: equals(source, &cell, n),
            read,
        };
    }
    Finding { yes: false, read }
}

// The options that a request's numbers name, with this table; an ending that is kept is a bad option.
#[tactic(auto, unfolding(rules::specs::Basics::choose))]
fn options_of(request: Request<'_>, table: Strengths) -> Result<FormatOptions, Refusal>
    ensures { result ≡ checked_options (choices_of request.entry.indent.now request.entry.numbers table.table) }
{
    let options = FormatOptions::from_numbers(request.indent, request.numbers, table)?;
    if options.end_of_line.is_none() {
        return Err(Refusal::BadOption);
    }
    Ok(options)
}

// The tests, then the lines.
fn run_check(request: Request<'_>, scratch: &mut [u8]) -> Result<Finding, Refusal>
    ensures { Found (choices_in request.entry) request.entry.source.now (length scratch.old) result }
{
    let table = options::strengths::read(request.strengths);
    let named = options_of(request, table);
    let options = call::test(request, named, scratch.len())?;
    Ok(check_with(request.source, options, scratch))
}

// The whole call. The scratch is cleared.
pub fn check_call(request: Request<'_>, scratch: &mut [u8]) -> CheckAnswer
    ensures { CheckAnswered (choices_in request.entry) request.entry.source.now (length scratch.old)
        result scratch.new }
{
    let outcome = run_check(request, scratch);
    buffer::zero(scratch);
    outcome.into()
}
