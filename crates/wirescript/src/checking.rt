// Whether a source is formatted already, for a host.
ghost use Rattle.std.specs.Prelude.{length};
ghost use Rattle.call.specs.Ran.{numbers_of};
ghost use Rattle.check_call.specs.CheckAnswered.{choices_of, CheckAnswered};

use call::Request;
use check_call::CheckAnswer;
use rules::OptionNumbers;

// Whether the text of a source would equal it: formatted is 1 or 0, and lines_read the lines that were read to tell.
// The options are those of wirescript_format; an ending that is kept is refused as a bad option.
#[unsafe(no_mangle)]
pub extern "C" fn wirescript_is_formatted(
    source: &[u8],
    indent: &[u8],
    width_set: u64,
    width: u64,
    line_ending: u64,
    final_newline: u64,
    ruler_tab: u64,
    strengths: &[u8],
    scratch: &mut [u8],
) -> CheckAnswer
    ensures { CheckAnswered (choices_of indent.now
        (numbers_of width_set width line_ending final_newline ruler_tab) strengths.now)
        source.now (length scratch.old) result scratch.new }
{
    let numbers = OptionNumbers {
        width_set,
        width,
        line_ending,
        final_newline,
        ruler_tab,
    };
    let request = Request {
        source,
        indent,
        numbers,
        strengths,
    };
    check_call::check_call(request, scratch)
}
