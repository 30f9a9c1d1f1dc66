// What a value is, without regard to case.
ghost use Rattle.std.specs.Prelude.{◌≡◌};
ghost use Rattle.config_rules.specs.Lines.{lower};
ghost use Rattle.config_rules.specs.Values.{style_of, size_of, tab_of, max_of, ending_of, newline_of};

use crate::is_word;
use crate::number::whole_of;
use rules::{ConfigEnding, IndentSize, IndentStyle, MaxLineLen};

#[tactic(auto, unfolding(rules::specs::Basics::choose, config_rules::specs::Values::style_of))]
pub fn style_of(v: &[u8]) -> Option<IndentStyle>
    ensures { result ≡ style_of (lower v.now) }
{
    if is_word(v, b"tab") {
        Some(IndentStyle::Tabs)
    } else if is_word(v, b"space") {
        Some(IndentStyle::Spaces)
    } else {
        None
    }
}

#[tactic(auto, unfolding(rules::specs::Basics::choose, config_rules::specs::Values::ending_of))]
pub fn ending_of(v: &[u8]) -> Option<ConfigEnding>
    ensures { result ≡ ending_of (lower v.now) }
{
    if is_word(v, b"lf") {
        Some(ConfigEnding::Lf)
    } else if is_word(v, b"crlf") {
        Some(ConfigEnding::CrLf)
    } else if is_word(v, b"cr") {
        Some(ConfigEnding::Cr)
    } else {
        None
    }
}

#[tactic(auto, unfolding(rules::specs::Basics::choose, config_rules::specs::Values::newline_of))]
pub fn newline_of(v: &[u8]) -> Option<bool>
    ensures { result ≡ newline_of (lower v.now) }
{
    if is_word(v, b"true") {
        Some(true)
    } else if is_word(v, b"false") {
        Some(false)
    } else {
        None
    }
}

#[tactic(auto, unfolding(rules::specs::Basics::choose, config_rules::specs::Values::size_of))]
pub fn size_of(v: &[u8]) -> Option<IndentSize>
    ensures { result ≡ size_of (lower v.now) }
{
    if is_word(v, b"tab") {
        return Some(IndentSize::UseTabWidth);
    }
    whole_of(v).map(IndentSize::Value)
}

pub fn tab_of(v: &[u8]) -> Option<usize>
    ensures { result ≡ tab_of (lower v.now) }
{
    whole_of(v)
}

#[tactic(auto, unfolding(rules::specs::Basics::choose, config_rules::specs::Values::max_of))]
pub fn max_of(v: &[u8]) -> Option<MaxLineLen>
    ensures { result ≡ max_of (lower v.now) }
{
    if is_word(v, b"off") {
        return Some(MaxLineLen::Off);
    }
    whole_of(v).map(MaxLineLen::Value)
}
