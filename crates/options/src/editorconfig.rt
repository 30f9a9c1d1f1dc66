// The EditorConfig step, value by value.
ghost use Rattle.std.specs.Prelude.{◌≡◌};
ghost use Rattle.rules.specs.EditorConfig.{size_of, too_large, width_from, ending_from, newline_from};

use crate::FormatOptions;
use rules::{ConfigEnding, FinalNewline, IndentSize, LineEnding, MaxLineLen};

// kept: the matches of this file on a value that may be unset. A method of the value's type, or a `From` of it, is no
// plainer: it would be the inner half of the match, and its caller would still need a `map_or` for what is unset.

// A numeric indent_size, else tab_width, else none.
pub fn size_of(size: Option<IndentSize>, tab: Option<usize>) -> Option<usize>
    ensures { result ≡ size_of size tab }
{
    match size {
        Some(IndentSize::Value(n)) => Some(n),
        Some(IndentSize::UseTabWidth) | None => tab,
    }
}

// A size over 64.
pub fn too_large(size: Option<usize>) -> bool
    ensures { result ≡ too_large size }
{
    size.is_some_and(|n| FormatOptions::MAX_INDENT < n)
}

// `off` gives no width.
pub fn width_from(max: Option<MaxLineLen>, old: Option<usize>) -> Option<usize>
    ensures { result ≡ width_from max old }
{
    match max {
        Some(MaxLineLen::Value(n)) => Some(n),
        Some(MaxLineLen::Off) => None,
        None => old,
    }
}

// `cr` changes nothing.
pub fn ending_from(ending: Option<ConfigEnding>, old: Option<LineEnding>) -> Option<LineEnding>
    ensures { result ≡ ending_from ending old }
{
    match ending {
        Some(ConfigEnding::Lf) => Some(LineEnding::LF),
        Some(ConfigEnding::CrLf) => Some(LineEnding::CRLF),
        Some(ConfigEnding::Cr) | None => old,
    }
}

pub fn newline_from(newline: Option<bool>, old: FinalNewline) -> FinalNewline
    ensures { result ≡ newline_from newline old }
{
    match newline {
        Some(true) => FinalNewline::Always,
        Some(false) => FinalNewline::Never,
        None => old,
    }
}
