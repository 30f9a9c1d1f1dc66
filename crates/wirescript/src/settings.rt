// The setting steps over numbers and bytes, for a host. They leave its ruler tab and its table of strengths as they
// are, and so are told neither.
ghost use Rattle.std.specs.Prelude.{◌≡◌};
ghost use Rattle.rules.specs.Strengths.{built_in};
ghost use Rattle.call.specs.Ran.{numbers_of};
ghost use Rattle.options.specs.Held.{options_in};
ghost use Rattle.wirescript.specs.Settings.{given_in, handed, tabs_named, indent_made, config_made};
ghost use Rattle.wirescript.specs.Settings.{indent_outcome, config_outcome};
ghost use Rattle.wirescript.specs.SettingsAnswered.{SettingsAnswered};

use crate::config;
use crate::config::ConfigNumbers;
use options::FormatOptions;
use rules::{OptionNumbers, Refusal, Strengths};

// What a setting step gives: refusal 0 and the changed options, their indent's bytes in the lent output; or a refusal
// with its place, the other numbers 0 and the output all zeros.
#[repr(C)]
#[derive(Clone, Copy, Default)]
pub struct Settings {
    pub refusal: u64,
    pub place: u64,
    pub indent_len: u64,
    pub width_set: u64,
    pub width: u64,
    pub line_ending: u64,
    pub final_newline: u64,
}

fn refuse(refusal: Refusal, output: &mut [u8]) -> Settings
    ensures { SettingsAnswered (λ _. Err refusal) result output.old output.new }
{
    buffer::zero(output);
    Settings {
        refusal: refusal.number(),
        place: refusal.place(),
        ..Settings::default()
    }
}

// The options as numbers, and their indent in the output.
fn give(options: FormatOptions, output: &mut [u8]) -> Settings
    ensures { SettingsAnswered (given_in (options_in options)) result output.old output.new }
{
    let indent = options.indent.as_bytes();
    let n = indent.len();
    if output.len() < n {
        return refuse(Refusal::OutputShort(n), output);
    }
    buffer::put_line(output, indent);
    buffer::finish(output, n);
    let numbers = OptionNumbers::from(options);
    Settings {
        refusal: 0,
        place: 0,
        indent_len: n as u64,
        width_set: numbers.width_set,
        width: numbers.width,
        line_ending: numbers.line_ending,
        final_newline: numbers.final_newline,
    }
}

// What a step made.
fn answered(step: Result<FormatOptions, Refusal>, output: &mut [u8]) -> Settings
    ensures { SettingsAnswered (handed step) result output.old output.new }
{
    match step {
        Ok(options) => give(options, output),
        Err(refusal) => refuse(refusal, output),
    }
}

fn tabs_named(tabs: u64) -> Option<bool>
    ensures { result ≡ tabs_named tabs }
{
    match tabs {
        0 => Some(false),
        1 => Some(true),
        _ => None,
    }
}

// `indent_with` on the options and the choice that the numbers name.
fn indent_step(
    indent: &[u8],
    numbers: OptionNumbers,
    tabs: u64,
    size: u64,
) -> Result<FormatOptions, Refusal>
    ensures { result ≡ indent_made
        (record { indent = indent.entry.now; numbers = numbers; strengths = built_in }) tabs size }
{
    let options = FormatOptions::from_numbers(indent, numbers, Strengths::BUILT_IN)?;
    let tabs = tabs_named(tabs).ok_or(Refusal::BadOption)?;
    options.indent_with(tabs, size as usize)
}

// The EditorConfig step on the options and the values that the numbers name.
fn config_step(
    indent: &[u8],
    numbers: OptionNumbers,
    values: ConfigNumbers,
) -> Result<FormatOptions, Refusal>
    ensures { result ≡ config_made
        (record { indent = indent.entry.now; numbers = numbers; strengths = built_in }) values }
{
    let options = FormatOptions::from_numbers(indent, numbers, Strengths::BUILT_IN)?;
    let values = config::named(values).ok_or(Refusal::BadOption)?;
    options.with_editorconfig(values)
}

// indent_with: tabs 0 spaces, 1 a tab.
#[unsafe(no_mangle)]
pub extern "C" fn wirescript_indent_with(
    indent: &[u8],
    width_set: u64,
    width: u64,
    line_ending: u64,
    final_newline: u64,
    tabs: u64,
    size: u64,
    output: &mut [u8],
) -> Settings
    ensures { SettingsAnswered (indent_outcome
        (record {
          indent = indent.entry.now;
          numbers = numbers_of width_set width line_ending final_newline 0;
          strengths = built_in;
        }) tabs size) result output.old output.new }
{
    let numbers = OptionNumbers {
        width_set,
        width,
        line_ending,
        final_newline,
        ruler_tab: 0,
    };
    answered(indent_step(indent, numbers, tabs, size), output)
}

// The EditorConfig step; `ConfigNumbers` says what its numbers name.
#[unsafe(no_mangle)]
pub extern "C" fn wirescript_editorconfig(
    indent: &[u8],
    width_set: u64,
    width: u64,
    line_ending: u64,
    final_newline: u64,
    style: u64,
    size_kind: u64,
    size: u64,
    tab_set: u64,
    tab: u64,
    max_kind: u64,
    max: u64,
    ending: u64,
    newline: u64,
    output: &mut [u8],
) -> Settings
    ensures { SettingsAnswered (config_outcome
        (record {
          indent = indent.entry.now;
          numbers = numbers_of width_set width line_ending final_newline 0;
          strengths = built_in;
        }) (record {
          style = style;
          size_kind = size_kind;
          size = size;
          tab_set = tab_set;
          tab = tab;
          max_kind = max_kind;
          max = max;
          ending = ending;
          newline = newline;
        })) result output.old
        output.new }
{
    let numbers = OptionNumbers {
        width_set,
        width,
        line_ending,
        final_newline,
        ruler_tab: 0,
    };
    let values = ConfigNumbers {
        style,
        size_kind,
        size,
        tab_set,
        tab,
        max_kind,
        max,
        ending,
        newline,
    };
    answered(config_step(indent, numbers, values), output)
}
