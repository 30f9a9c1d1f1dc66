// Formatting calls for an editor: with the caret's place in the text, and as a list of changes.
#![tactic(auto)]

ghost use Rattle.std.specs.Prelude.{length};
ghost use Rattle.call.specs.Ran.{asked};
ghost use Rattle.edits.specs.Text.{TextRan};

use call::Request;
use rules::{Formatted, Refusal};

pub mod with_caret;
pub mod with_changes;

// The formatting call, with no room for the lines of open brackets.
pub fn format_text(
    request: Request<'_>,
    output: &mut [u8],
    scratch: &mut [u8],
) -> Result<Formatted, Refusal>
    ensures { TextRan (asked request.entry (length output.old) 0 (length scratch.old)) result output.new scratch.new }
{
    call::format(request, output, &mut [], scratch)
}
