// The lines of a source, one after the other.
#![tactic(auto)]

ghost use Rattle.std.specs.Prelude.{option_copied};
ghost use Rattle.lines.specs.Lines.{Passed, Starts, Differs, AllRead};

use line::formatter::Formatter;
use line::indent::LineIndent;
use line::style::{Setup, Style};
use line_ends::{line_end, without_cr};
use step::line_step;

// The record after the lines that were read, and whether these are all.
// kept: the new form is no plainer: the record is used in both ways, so that a Result would hold it twice
#[derive(Clone, Copy)]
pub struct LinesRead {
    pub st: Formatter,
    pub all: bool,
}

// Whether a text that is compared with a model differs from it in its first k bytes, which are settled, if checks. The
// model is read as `read_lines` reads it, so that both are one value: with a match `blank lines` takes 8 % more
// instructions.
fn differs(checks: bool, model: Option<&[u8]>, out: &[u8], k: usize) -> bool
    ensures { Differs checks (option_copied model.entry) out.now k result }
{
    checks && model.is_some() && !compare::begins(model.unwrap_or(b""), out, k)
}

// Every line of the source goes to the output. After the last LF stands one more line. If there is a model, the text is
// compared with it, and if checks, reading stops after the first line whose settled text differs.
pub fn read_lines(
    source: &[u8],
    indent: &[u8],
    style: Style,
    checks: bool,
    model: Option<&[u8]>,
    out: &mut [u8],
    scratch: &mut [u8],
) -> LinesRead
    requires passed { Passed source.now indent.now scratch.old }
    requires starts { Starts (option_copied model) out.old }
    ensures { AllRead source.now indent.now style checks (option_copied model.entry) result
        out.new scratch.new }
{
    let unit = source.len();
    let setup = Setup { style, unit };
    let held = LineIndent { bytes: indent };
    let text = model.unwrap_or(b"");
    let mut st = Formatter::new();
    let mut at = 0;
    // kept: `source.split(..)` tests byte after byte, where `line_end` finds an LF by vectors: `templates` takes 10 %
    // more instructions with it (tried)
    while at <= unit {
        let end = line_end(source, at);
        let raw = without_cr(&source[at..end]);
        st = line_step(raw, held, setup, text, out, scratch, st).remade();
        st.nesting.line += 1;
        at = end + 1;
        if differs(checks, model, out, st.text.settled) {
            return LinesRead { st, all: false };
        }
    }
    LinesRead { st, all: true }
}
