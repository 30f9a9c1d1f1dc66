// The options as a host gives them: bytes and numbers. A number names a choice, or none.
ghost use Rattle.std.specs.Prelude.{◌≡◌};
ghost use Rattle.rules.specs.Options.{all_blank, valid_indent};
ghost use Rattle.rules.specs.Choices.{print_width_named, end_of_line_named, final_newline_named};
ghost use Rattle.options.specs.Held.{options_in};
ghost use Rattle.options.specs.Numbers.{numbers_in};

use crate::FormatOptions;
use rules::{FinalNewline, LineEnding, OptionNumbers};

// At most 64 bytes, spaces and tabs only.
#[tactic(auto, unfolding(rules::specs::Options::valid_indent))]
pub fn valid_indent(indent: &[u8]) -> bool
    ensures { result ≡ valid_indent indent.now }
{
    indent.len() <= FormatOptions::MAX_INDENT && all_blank(indent)
}

#[tactic(auto, unfolding(rules::specs::Options::all_blank))]
fn all_blank(s: &[u8]) -> bool
    ensures { result ≡ all_blank s.now }
{
    s.iter().all(|b| matches!(*b, b' ' | b'\t'))
}

pub fn print_width_named(width_set: u64, width: u64) -> Option<Option<usize>>
    ensures { result ≡ print_width_named width_set width }
{
    match width_set {
        0 => Some(None),
        1 => Some(Some(width as usize)),
        _ => None,
    }
}

pub fn end_of_line_named(line_ending: u64) -> Option<Option<LineEnding>>
    ensures { result ≡ end_of_line_named line_ending }
{
    match line_ending {
        0 => Some(None),
        1 => Some(Some(LineEnding::LF)),
        2 => Some(Some(LineEnding::CRLF)),
        _ => None,
    }
}

pub fn final_newline_named(final_newline: u64) -> Option<FinalNewline>
    ensures { result ≡ final_newline_named final_newline }
{
    match final_newline {
        0 => Some(FinalNewline::AsSource),
        1 => Some(FinalNewline::Always),
        2 => Some(FinalNewline::Never),
        _ => None,
    }
}

// The numbers that name a call's options. The width is 0 where there is none.
impl From<FormatOptions> for OptionNumbers {
    ghost from_gives = { λ o n. n ≡ numbers_in (options_in o) };

    fn from(options: FormatOptions) -> OptionNumbers {
        OptionNumbers {
            width_set: options.print_width.is_some() as u64,
            width: options.print_width.unwrap_or(0) as u64,
            line_ending: match options.end_of_line {
                None => 0,
                Some(LineEnding::Lf) => 1,
                Some(LineEnding::Crlf) => 2,
            },
            final_newline: match options.insert_final_newline {
                FinalNewline::AsSource => 0,
                FinalNewline::Always => 1,
                FinalNewline::Never => 2,
            },
            ruler_tab: options.ruler_tab as u64,
        }
    }
}
