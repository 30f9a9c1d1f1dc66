// A line that is one bracket: it is code and spaced as it is, no else and no declaration, and never broken.
ghost use Rattle.std.specs.Prelude.{◌≡◌, true, length};
ghost use Rattle.utf8.specs.Unicode.{decode};
ghost use Rattle.rules.specs.Basics.{choose, is_closer};
ghost use Rattle.rules.specs.Lines.{as_str};
ghost use Rattle.rules.specs.Options.{Options};
ghost use Rattle.brackets.specs.Stack.{stacked, StackFits, BracketsDone, opened_by};
ghost use Rattle.line.specs.Holds.{Ready, Stepped, Uses};
ghost use Rattle.line.specs.Lone.{is_lone, lone_by};

use crate::formatter::{Formatter, Prev};
use crate::indent::LineIndent;
use crate::scratch::STACK;
use crate::style::Setup;
use basics::{is_closer, is_opener};
use brackets::Nesting;
use rules::{Carry, Ignore};
use text::Adding;

pub fn is_lone(line: &[u8]) -> bool
    ensures { result ≡ is_lone line.now }
{
    matches!(line, [c] if is_opener(*c) | is_closer(*c))
}

// How many leading closers it has.
#[tactic(auto, unfolding(rules::specs::Basics::choose))]
fn closers_in(c: u8) -> usize
    ensures { result ≡ choose (is_closer c) 1 0 }
{
    usize::from(is_closer(c))
}

// Its bracket, after a leading closer popped.
fn turn(c: u8, scratch: &mut [u8], base: usize, left: Nesting) -> Nesting
    requires { StackFits scratch.old 0 1 base left }
    ensures { BracketsDone scratch.old scratch.new base left 1 (choose (is_closer c)
        (stacked scratch.old base left.depth)
        (opened_by left.line (stacked scratch.old base left.depth))) result }
{
    if is_closer(c) {
        left
    } else {
        brackets::open(scratch, base, left)
    }
}

// The line, which no marker protects.
pub fn lone_line(
    line: &[u8],
    indent: LineIndent<'_>,
    setup: Setup,
    model: &[u8],
    out: &mut [u8],
    scratch: &mut [u8],
    st: Formatter,
) -> Formatter
    requires ready { Ready st scratch.old setup.unit (length line.now) }
    requires line_value { is_lone line.now ≡ true }
    ensures { (o : Options) → Uses o indent.entry.bytes.now setup.style → Stepped
        (lone_by o (decode line.now)) (length line.now) setup.unit model.now
        (as_str setup.style.ending) st out.old scratch.old result out.new
        scratch.new }
{
    let c = line[0];
    let base = STACK * setup.unit;
    let left = brackets::pop_closers(scratch, base, st.nesting, closers_in(c));
    let brace = c == b'}';
    let how = Adding {
        ending: setup.style.ending,
        drops: false,
        levels: left.levels,
        tail: 1,
        joins: brace,
    };
    let text = text::push_line(model, out, st.text, indent.bytes, line, how);
    Formatter {
        text,
        nesting: turn(c, scratch, base, left),
        blank: false,
        prev: Prev {
            declares: None,
            brace,
        },
        carry: Carry::Code,
        ignore: Ignore::Nothing,
        ..st
    }
}
