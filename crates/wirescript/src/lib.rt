// What a host links.
#![tactic(auto)]

pub mod checking;
mod config;
pub mod editorconfig;
pub mod grouping;
pub mod interface;
pub mod kinds;
pub mod settings;
pub mod with_caret;
pub mod with_changes;

ghost use Rattle.std.specs.Prelude.{length};
ghost use Rattle.call.specs.Ran.{call_of, numbers_of};
ghost use Rattle.call.specs.FormatAnswered.{FormatAnswered};
ghost use Rattle.text_kind.specs.KindAnswered.{KindAnswered};

use call::Request;
use rules::{Answer, Kind, OptionNumbers};
use utf8::CharColumn;

// What the character at a line and a column, both from 0, is part of: 0 code, 1 a string, 2 a comment.
#[unsafe(no_mangle)]
pub extern "C" fn wirescript_text_kind_at(
    source: &[u8],
    line: u64,
    column: u64,
    scratch: &mut [u8],
) -> Kind
    ensures { KindAnswered source.now line column scratch.old scratch.new result }
{
    let answer = text_kind::answer(source, line as usize, CharColumn(column as usize), scratch);
    buffer::zero(scratch);
    answer
}

// The text of a source. width_set: 0 no width, 1 the width given. line_ending: 0 kept, 1 LF, 2 CRLF. final_newline: 0
// as the source, 1 always, 2 never. ruler_tab: 0 a tab is one column, else how far apart the ruler's tab stops are.
// strengths: 11 bytes, as `Strengths` of crate rules says. opened gets the source lines, from 0, of the brackets that
// are still open at the end, the oldest first, as many as it has room for.
// kept: the C interface takes each of these by itself, here and in the other exported calls
#[unsafe(no_mangle)]
pub extern "C" fn wirescript_format(
    source: &[u8],
    indent: &[u8],
    width_set: u64,
    width: u64,
    line_ending: u64,
    final_newline: u64,
    ruler_tab: u64,
    strengths: &[u8],
    output: &mut [u8],
    opened: &mut [u64],
    scratch: &mut [u8],
) -> Answer
    ensures { FormatAnswered (call_of source.now indent.now
        (numbers_of width_set width line_ending final_newline ruler_tab) strengths.now
        (length output.old) (length opened.old) (length scratch.old)) result
        output.new opened.new scratch.new }
{
    let numbers = OptionNumbers {
        width_set,
        width,
        line_ending,
        final_newline,
        ruler_tab,
    };
    let request = Request {
        source,
        indent,
        numbers,
        strengths,
    };
    call::format_call(request, output, opened, scratch)
}
