// What reading comes to, in the numbers that `wirescript_editorconfig` takes.
// kept: the new form is no plainer: the types are those of `rules` and `None` has a number as well, so a method of each
// type would leave a `map_or(0, ..)` to the one caller
ghost use Rattle.std.specs.Prelude.{◌≡◌};
ghost use Rattle.config_rules.specs.Call.{style_number, size_kind, size_number};
ghost use Rattle.config_rules.specs.Call.{max_kind, max_number, ending_number, newline_number, answer_of};

use crate::{ConfigAnswer, ConfigRefusal};
use rules::{ConfigEnding, IndentSize, IndentStyle, MaxLineLen, Resolved};

fn style_number(style: Option<IndentStyle>) -> u64
    ensures { result ≡ style_number style }
{
    match style {
        None => 0,
        Some(IndentStyle::Tabs) => 1,
        Some(IndentStyle::Spaces) => 2,
    }
}

// The kind of a size, and the size.
fn size_numbers(size: Option<IndentSize>) -> (u64, u64)
    ensures { result ≡ (size_kind size, size_number size) }
{
    match size {
        None => (0, 0),
        Some(IndentSize::UseTabWidth) => (1, 0),
        Some(IndentSize::Value(n)) => (2, n as u64),
    }
}

// The kind of a longest line, and its length.
fn max_numbers(max: Option<MaxLineLen>) -> (u64, u64)
    ensures { result ≡ (max_kind max, max_number max) }
{
    match max {
        None => (0, 0),
        Some(MaxLineLen::Off) => (1, 0),
        Some(MaxLineLen::Value(n)) => (2, n as u64),
    }
}

fn ending_number(ending: Option<ConfigEnding>) -> u64
    ensures { result ≡ ending_number ending }
{
    match ending {
        None => 0,
        Some(ConfigEnding::Lf) => 1,
        Some(ConfigEnding::CrLf) => 2,
        Some(ConfigEnding::Cr) => 3,
    }
}

#[tactic(auto, unfolding(rules::specs::Basics::choose))]
fn newline_number(newline: Option<bool>) -> u64
    ensures { result ≡ newline_number newline }
{
    match newline {
        None => 0,
        Some(false) => 1,
        Some(true) => 2,
    }
}

impl From<Result<Resolved, ConfigRefusal>> for ConfigAnswer {
    ghost from_gives = { λ o a. a ≡ answer_of o };

    fn from(outcome: Result<Resolved, ConfigRefusal>) -> ConfigAnswer {
        match outcome {
            Ok(values) => {
                let (size_kind, size) = size_numbers(values.size);
                let (max_kind, max) = max_numbers(values.max);
                ConfigAnswer {
                    refusal: 0,
                    place: 0,
                    style: style_number(values.style),
                    size_kind,
                    size,
                    tab_set: values.tab.is_some() as u64,
                    tab: values.tab.unwrap_or(0) as u64,
                    max_kind,
                    max,
                    ending: ending_number(values.ending),
                    newline: newline_number(values.newline),
                }
            }
            Err(why) => ConfigAnswer {
                refusal: why.number(),
                ..ConfigAnswer::default()
            },
        }
    }
}
