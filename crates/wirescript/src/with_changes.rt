// A formatting call that gives the changes from the source to the text too, for a host.
ghost use Rattle.std.specs.Prelude.{length};
ghost use Rattle.call.specs.Ran.{call_of, numbers_of};
ghost use Rattle.edits.specs.ChangesAnswered.{ChangesAnswered};

use call::Request;
use edits::with_changes::ChangesAnswer;
use rules::OptionNumbers;

// The text of a source, and in `changes`, for each gap that differs: byte offset in the source, bytes removed, offset
// in the text, bytes put in. The options are those of wirescript_format.
#[unsafe(no_mangle)]
pub extern "C" fn wirescript_format_changes(
    source: &[u8],
    indent: &[u8],
    width_set: u64,
    width: u64,
    line_ending: u64,
    final_newline: u64,
    ruler_tab: u64,
    strengths: &[u8],
    output: &mut [u8],
    changes: &mut [u64],
    scratch: &mut [u8],
) -> ChangesAnswer
    ensures { ChangesAnswered (call_of source.now indent.now
        (numbers_of width_set width line_ending final_newline ruler_tab) strengths.now
        (length output.old) 0 (length scratch.old)) (length changes.old)
        result output.new changes.new scratch.new }
{
    let numbers = OptionNumbers {
        width_set,
        width,
        line_ending,
        final_newline,
        ruler_tab,
    };
    let request = Request {
        source,
        indent,
        numbers,
        strengths,
    };
    edits::with_changes::format_changes(request, output, changes, scratch)
}
