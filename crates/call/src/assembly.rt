// Assembly: all lines of a source, the ending that they get, and the finish.
ghost use Rattle.std.specs.Prelude.{◌≡◌, List, [], ℕ, ◌+◌, ◌*◌, ◌≤◌, length};
ghost use Rattle.utf8.specs.Unicode.{decode, WellFormed};
ghost use Rattle.rules.specs.Basics.{choose};
ghost use Rattle.rules.specs.Options.{max_ruler};
ghost use Rattle.rules.specs.Assembly.{ending_of, last_ending, format_with};
ghost use Rattle.rules.specs.Brackets.{open_lines};
ghost use Rattle.brackets.specs.Stack.{entry_size, stacked};
ghost use Rattle.lines.specs.Lines.{Passed};
ghost use Rattle.options.specs.Held.{options_in};
ghost use Rattle.call.specs.Formatted.{Told, Fitted};
ghost use Rattle.call.specs.Styled.{style_of};

use line::scratch::STACK;
use line::style::Style;
use options::FormatOptions;
use rules::{FinalNewline, Formatted, LineEnding, Refusal};

// kept: `WellFormed source.now` stays a clause: a host lends bytes, and `answer::test_bytes` tells by vectors that they
// are well-formed, without a `&str`. `from_utf8` would read all of them once more, and its unchecked form is unsafe

// The ending that the text's lines get: set, or the one that most of the source's lines have.
#[tactic(auto, using(crate::proofs::CallLaws::ending_made))]
pub fn ending_of(end_of_line: Option<LineEnding>, source: &[u8]) -> LineEnding
    requires { WellFormed source.now }
    ensures { result ≡ ending_of end_of_line (decode source.now) }
{
    end_of_line.unwrap_or_else(|| options::ending::dominant_in(source))
}

// Whether one more ending follows the text: always, if the source ends in LF, or never.
pub fn has_last_ending(newline: FinalNewline, source: &[u8]) -> bool
    requires { WellFormed source.now }
    ensures { (eol : List ℕ) → choose result eol [] ≡ last_ending newline (decode source.now) eol }
{
    let own = options::ending::ends_in_lf(source);
    match newline {
        FinalNewline::AsSource => own,
        FinalNewline::Always => true,
        FinalNewline::Never => false,
    }
}

// What the options ask of each line, with the ending that the text's lines get.
// kept: the bound of the ruler stays a clause, here, in `format_with` and in check_call: `FormatOptions` can't hold it,
// since a host may set any ruler before `test`, and a struct of both would be taken apart in each of the three
pub fn style_of(options: FormatOptions, ending: LineEnding) -> Style
    requires { options.ruler_tab ≤ max_ruler }
    ensures { result ≡ style_of options ending }
{
    Style {
        width: options.print_width,
        ruler: options.ruler_tab as u8,
        ending,
        strengths: options.strengths,
    }
}

// The lines of the brackets that are open go to the list, of a stack of this depth from base on, and the scratch is
// cleared. Gives how many are open.
pub fn list_open(opened: &mut [u64], scratch: &mut [u8], base: usize, depth: usize) -> usize
    requires { base + entry_size * depth ≤ length scratch.old }
    ensures { Told (open_lines (stacked scratch.old base depth)) (length opened.old)
        (length scratch.old) result opened.new scratch.new }
{
    let count = brackets::list_lines(scratch, base, depth, opened);
    buffer::zero(scratch);
    count
}

// The source's text goes to the output, if it fits, and the list gets the open brackets.
pub fn format_with(
    source: &[u8],
    options: FormatOptions,
    output: &mut [u8],
    opened: &mut [u64],
    scratch: &mut [u8],
) -> Result<Formatted, Refusal>
    requires passed { Passed source.now options.indent scratch.old }
    requires ruler_tab_bound { options.ruler_tab ≤ max_ruler }
    ensures { Fitted (format_with (options_in options) (decode source.now))
        (length output.old) (length opened.old) (length scratch.old) result
        output.new opened.new scratch.new }
{
    let ending = ending_of(options.end_of_line, source);
    let style = style_of(options, ending);
    let indent = options.indent.as_bytes();
    let read = lines::read_lines(source, indent, style, false, None, output, scratch);
    let st = read.st;
    let last = has_last_ending(options.insert_final_newline, source);
    let n = text::finish_text(output, st.text, ending, last);
    if output.len() < n {
        list_open(opened, scratch, 0, 0);
        return Err(Refusal::OutputShort(n));
    }
    let base = STACK * source.len();
    let count = list_open(opened, scratch, base, st.nesting.depth);
    Ok(Formatted {
        length: n,
        imports_split: st.imports,
        blank_names: st.blanks,
        open_brackets: count,
    })
}
