// A formatting call that moves a caret too, for a host.
ghost use Rattle.std.specs.Prelude.{length};
ghost use Rattle.call.specs.Ran.{call_of, numbers_of};
ghost use Rattle.edits.specs.CaretAnswered.{CaretAnswered};

use call::Request;
use caret::LineColumn;
use edits::with_caret::CaretAnswer;
use rules::OptionNumbers;

// The text of a source, and the line and the character column, both from 0, that the caret gets in it. The options are
// those of wirescript_format.
#[unsafe(no_mangle)]
pub extern "C" fn wirescript_format_caret(
    source: &[u8],
    indent: &[u8],
    width_set: u64,
    width: u64,
    line_ending: u64,
    final_newline: u64,
    ruler_tab: u64,
    strengths: &[u8],
    line: u64,
    column: u64,
    output: &mut [u8],
    scratch: &mut [u8],
) -> CaretAnswer
    ensures { CaretAnswered (call_of source.now indent.now
        (numbers_of width_set width line_ending final_newline ruler_tab) strengths.now
        (length output.old) 0 (length scratch.old)) line column
        result output.new scratch.new }
{
    let numbers = OptionNumbers {
        width_set,
        width,
        line_ending,
        final_newline,
        ruler_tab,
    };
    let request = Request {
        source,
        indent,
        numbers,
        strengths,
    };
    let at = LineColumn {
        line: line as usize,
        column: column as usize,
    };
    edits::with_caret::format_caret(request, at, output, scratch)
}
