// One .editorconfig text, walked line by line: too long names, `root`, and the values that its sections set.
#![tactic(auto)]

pub mod steps;
#[cfg(test)]
mod tests;
pub mod walk;

ghost use Rattle.std.specs.Prelude.{◌≡◌, false};
ghost use Rattle.utf8.specs.Unicode.{WellFormed, decode};
ghost use Rattle.config_rules.specs.Lines.{lines_of};
ghost use Rattle.config_rules.specs.Sections.{long_name, root_at, settings};
ghost use Rattle.config_text.specs.Walk.{Readable};
ghost use Rattle.config_text.specs.Steps.{Accepted};

use rules::Resolved;
use walk::Lines;

// Whether a section's name has more than 1,024 characters.
pub fn has_long_name(text: &[u8]) -> bool
    requires { Readable text.now }
    ensures { result ≡ long_name (lines_of (decode text.now)) }
{
    Lines::of(text).any(steps::is_long)
}

// Whether the preamble ends with `root` set to true.
pub fn is_root(text: &[u8]) -> bool
    requires { Readable text.now }
    ensures { result ≡ root_at false (lines_of (decode text.now)) }
{
    let mut root = false;
    for line in Lines::of(text) {
        if steps::starts_section(line) {
            return root;
        }
        root = steps::root_after_trimming(root, line);
    }
    root
}

// The values after the sections of a text whose names match the path relative to its directory.
pub fn settings(text: &[u8], rel: &[u8], old: Resolved) -> Resolved
    requires { Accepted text.now × WellFormed rel.now }
    ensures { result ≡ settings (decode rel.now) false old (lines_of (decode text.now)) }
{
    let mut values = old;
    let mut applies = false;
    for line in Lines::of(text) {
        applies = steps::applies_after(applies, line, rel);
        values = steps::values_after_trimming(applies, values, line);
    }
    values
}
