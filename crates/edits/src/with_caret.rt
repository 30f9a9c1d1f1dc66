// A formatting call that moves a caret too.
ghost use Rattle.std.specs.Prelude.{length, ◌≡◌};
ghost use Rattle.call.specs.Ran.{asked};
ghost use Rattle.edits.specs.CaretCall.{caret_told};
ghost use Rattle.edits.specs.CaretAnswered.{CaretAnswered};

use call::Request;
use caret::LineColumn;
use rules::{Formatted, Refusal};

// What a call gives beside the text in its output: the text's length and counts, and where the caret goes in it.
#[derive(Clone, Copy)]
pub struct WithCaret {
    pub text: Formatted,
    pub to: LineColumn,
}

// The answer of a formatting call, with the caret's line and column in the text.
#[repr(C)]
#[derive(Clone, Copy, Default)]
pub struct CaretAnswer {
    pub refusal: u64,
    pub place: u64,
    pub length: u64,
    pub imports_split: u64,
    pub blank_names: u64,
    pub line: u64,
    pub column: u64,
}

impl From<Result<WithCaret, Refusal>> for CaretAnswer {
    ghost from_gives = { λ o a. a ≡ caret_told o };

    fn from(outcome: Result<WithCaret, Refusal>) -> CaretAnswer {
        match outcome {
            Ok(moved) => CaretAnswer {
                refusal: 0,
                place: 0,
                length: moved.text.length as u64,
                imports_split: moved.text.imports_split as u64,
                blank_names: moved.text.blank_names as u64,
                line: moved.to.line as u64,
                column: moved.to.column as u64,
            },
            Err(why) => CaretAnswer {
                refusal: why.number(),
                place: why.place(),
                ..CaretAnswer::default()
            },
        }
    }
}

// The text, and where the caret that stands at a line and a column of the source goes in it.
fn move_caret(
    request: Request<'_>,
    at: LineColumn,
    output: &mut [u8],
    scratch: &mut [u8],
) -> Result<WithCaret, Refusal>
    ensures { CaretAnswered (asked request.entry (length output.old) 0 (length scratch.old)) at.line at.column
        (caret_told result) output.new scratch.new }
{
    let text = crate::format_text(request, output, scratch)?;
    let taken = &output[..text.length];
    match caret::caret_in_text(request.source, taken, at) {
        Some(to) => Ok(WithCaret { text, to }),
        None => {
            buffer::zero(output);
            Err(Refusal::NoPlace)
        },
    }
}

// The same, with its answer in numbers.
pub fn format_caret(
    request: Request<'_>,
    at: LineColumn,
    output: &mut [u8],
    scratch: &mut [u8],
) -> CaretAnswer
    ensures { CaretAnswered (asked request.entry (length output.old) 0 (length scratch.old)) at.line at.column
        result output.new scratch.new }
{
    move_caret(request, at, output, scratch).into()
}
