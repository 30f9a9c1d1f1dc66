// The resolved values of .editorconfig that numbers name.
ghost use Rattle.std.specs.Prelude.{◌≡◌};
ghost use Rattle.wirescript.specs.Config.{indent_style_named, indent_size_named, max_line_len_named};
ghost use Rattle.wirescript.specs.Config.{config_ending_named, insert_newline_named, config_named};

use options::numbers::print_width_named;
use rules::{ConfigEnding, IndentSize, IndentStyle, MaxLineLen, Resolved};

// The values in numbers. style: 0 unset, 1 tabs, 2 spaces. size_kind: 0 unset, 1 the tab width, 2 size. tab_set: 0
// unset, 1 tab. max_kind: 0 unset, 1 off, 2 max. ending: 0 unset, 1 LF, 2 CRLF, 3 CR. newline: 0 unset, 1 false, 2
// true.
#[derive(Clone, Copy)]
pub struct ConfigNumbers {
    pub style: u64,
    pub size_kind: u64,
    pub size: u64,
    pub tab_set: u64,
    pub tab: u64,
    pub max_kind: u64,
    pub max: u64,
    pub ending: u64,
    pub newline: u64,
}

// What each number names: a value, unset, or nothing.
fn style_named(style: u64) -> Option<Option<IndentStyle>>
    ensures { result ≡ indent_style_named style }
{
    match style {
        0 => Some(None),
        1 => Some(Some(IndentStyle::Tabs)),
        2 => Some(Some(IndentStyle::Spaces)),
        _ => None,
    }
}

fn size_named(size_kind: u64, size: u64) -> Option<Option<IndentSize>>
    ensures { result ≡ indent_size_named size_kind size }
{
    match size_kind {
        0 => Some(None),
        1 => Some(Some(IndentSize::UseTabWidth)),
        2 => Some(Some(IndentSize::Value(size as usize))),
        _ => None,
    }
}

fn max_named(max_kind: u64, max: u64) -> Option<Option<MaxLineLen>>
    ensures { result ≡ max_line_len_named max_kind max }
{
    match max_kind {
        0 => Some(None),
        1 => Some(Some(MaxLineLen::Off)),
        2 => Some(Some(MaxLineLen::Value(max as usize))),
        _ => None,
    }
}

fn ending_named(ending: u64) -> Option<Option<ConfigEnding>>
    ensures { result ≡ config_ending_named ending }
{
    match ending {
        0 => Some(None),
        1 => Some(Some(ConfigEnding::Lf)),
        2 => Some(Some(ConfigEnding::CrLf)),
        3 => Some(Some(ConfigEnding::Cr)),
        _ => None,
    }
}

fn newline_named(newline: u64) -> Option<Option<bool>>
    ensures { result ≡ insert_newline_named newline }
{
    match newline {
        0 => Some(None),
        1 => Some(Some(false)),
        2 => Some(Some(true)),
        _ => None,
    }
}

// The values that the numbers name, if each names one. A tab width is numbered as a print width is.
#[tactic(auto, unfolding(rules::specs::Basics::choose, crate::specs::Config::valid_config, crate::specs::Config::resolved_of))]
pub fn named(numbers: ConfigNumbers) -> Option<Resolved>
    ensures { result ≡ config_named numbers }
{
    Some(Resolved {
        style: style_named(numbers.style)?,
        size: size_named(numbers.size_kind, numbers.size)?,
        tab: print_width_named(numbers.tab_set, numbers.tab)?,
        max: max_named(numbers.max_kind, numbers.max)?,
        ending: ending_named(numbers.ending)?,
        newline: newline_named(numbers.newline)?,
    })
}
