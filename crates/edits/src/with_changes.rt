// A formatting call that gives the changes from the source to the text too.
ghost use Rattle.std.specs.Prelude.{length, ◌≡◌};
ghost use Rattle.call.specs.Ran.{asked};
ghost use Rattle.edits.specs.ChangesCall.{changes_told};
ghost use Rattle.edits.specs.ChangesAnswered.{ChangesAnswered};

use call::Request;
use rules::{Formatted, Refusal};

// What a call gives beside the text in its output and the changes in its list: the text's length and counts, and how
// many changes there are.
#[derive(Clone, Copy)]
pub struct WithChanges {
    pub text: Formatted,
    pub changes: usize,
}

// The answer of a formatting call, with the number of changes.
#[repr(C)]
#[derive(Clone, Copy, Default)]
pub struct ChangesAnswer {
    pub refusal: u64,
    pub place: u64,
    pub length: u64,
    pub imports_split: u64,
    pub blank_names: u64,
    pub changes: u64,
}

impl From<Result<WithChanges, Refusal>> for ChangesAnswer {
    ghost from_gives = { λ o a. a ≡ changes_told o };

    fn from(outcome: Result<WithChanges, Refusal>) -> ChangesAnswer {
        match outcome {
            Ok(listed) => ChangesAnswer {
                refusal: 0,
                place: 0,
                length: listed.text.length as u64,
                imports_split: listed.text.imports_split as u64,
                blank_names: listed.text.blank_names as u64,
                changes: listed.changes as u64,
            },
            Err(why) => ChangesAnswer {
                refusal: why.number(),
                place: why.place(),
                ..ChangesAnswer::default()
            },
        }
    }
}

// The text, and in the list, four numbers to each, the changes that turn the source into it. Refused, the list is
// cleared.
// kept: output, list and scratch stay parameters of their own. A struct of the three is no plainer: it would hold three
// `&mut`, and each function that it is lent to would need a clause for each that its name stays.
fn list_changes(
    request: Request<'_>,
    output: &mut [u8],
    list: &mut [u64],
    scratch: &mut [u8],
) -> Result<WithChanges, Refusal>
    ensures { ChangesAnswered (asked request.entry (length output.old) 0 (length scratch.old)) (length list.old)
        (changes_told result) output.new list.new scratch.new }
{
    match crate::format_text(request, output, scratch) {
        Err(why) => {
            list.fill(0);
            Err(why)
        },
        Ok(text) => {
            let n = changes::write_changes(request.source, &output[..text.length], list);
            if list.len() / 4 < n {
                buffer::zero(output);
                list.fill(0);
                return Err(Refusal::ListShort(n));
            }
            list[n * 4..].fill(0);
            Ok(WithChanges { text, changes: n })
        },
    }
}

// The same, with its answer in numbers.
pub fn format_changes(
    request: Request<'_>,
    output: &mut [u8],
    list: &mut [u64],
    scratch: &mut [u8],
) -> ChangesAnswer
    ensures { ChangesAnswered (asked request.entry (length output.old) 0 (length scratch.old)) (length list.old)
        result output.new list.new scratch.new }
{
    list_changes(request, output, list, scratch).into()
}
