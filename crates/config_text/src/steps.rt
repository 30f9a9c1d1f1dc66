// What one line does.
ghost use Rattle.std.specs.Prelude.{◌≡◌, [], ◌∷◌};
ghost use Rattle.utf8.specs.Unicode.{decode};
ghost use Rattle.config_rules.specs.Sections.{long_name};
ghost use Rattle.config_lines.specs.Kinds.{line_in, trimmed_line_in, Parts};
ghost use Rattle.config_text.specs.Steps.{starts_section, root_after, applies_after, values_after, Named};

use config_lines::kinds::LineKind;
use config_lines::{is_word, pairs, trimmed};
use glob_match::glob_matches;
use rules::Resolved;

// A header whose name is too long.
// kept: the new form is no plainer: what `Parts` says here and below in one word would take a struct with a ghost field
// for each variant of `LineKind`
#[tactic(auto, unfolding(config_lines::specs::Kinds::line_in, config_rules::specs::Sections::long_name))]
pub fn is_long(line: Option<LineKind<'_>>) -> bool
    requires { Parts line }
    ensures { result ≡ long_name (line_in line.entry ∷ []) }
{
    match line {
        Some(LineKind::Header(name)) => 1024 < utf8::char_count(name).0,
        _ => false,
    }
}

// Whether a line is a header.
pub fn starts_section(line: Option<LineKind<'_>>) -> bool
    ensures { result ≡ starts_section line.entry }
{
    matches!(line, Some(LineKind::Header(_)))
}

// A pair sets `root` if that is its key. Key and value are taken as they stand.
#[tactic(auto, unfolding(config_lines::specs::Kinds::line_in, crate::specs::Steps::root_after))]
pub fn root_after(root: bool, line: Option<LineKind<'_>>) -> bool
    requires { Parts line }
    ensures { result ≡ root_after root (line_in line.entry) }
{
    match line {
        Some(LineKind::Pair(key, value)) if is_word(key, b"root") => is_word(value, b"true"),
        _ => root,
    }
}

// The same, where key and value are yet to be trimmed.
#[tactic(auto, unfolding(config_lines::specs::Kinds::trimmed_line_in, crate::specs::Steps::root_after))]
pub fn root_after_trimming(root: bool, line: Option<LineKind<'_>>) -> bool
    requires { Parts line }
    ensures { result ≡ root_after root (trimmed_line_in line.entry) }
{
    match line {
        Some(LineKind::Pair(key, value)) if is_word(trimmed(key), b"root") => {
            is_word(trimmed(value), b"true")
        }
        _ => root,
    }
}

// Whether the pairs that follow count: a header decides.
#[tactic(auto, unfolding(config_lines::specs::Kinds::line_in, crate::specs::Steps::applies_after))]
pub fn applies_after(applies: bool, line: Option<LineKind<'_>>, rel: &[u8]) -> bool
    requires { Named line rel.now }
    ensures { result ≡ applies_after (decode rel.now) applies (line_in line.entry) }
{
    match line {
        Some(LineKind::Header(name)) => glob_matches(name, rel),
        _ => applies,
    }
}

// A pair that counts supersedes a value. Key and value are taken as they stand.
#[tactic(auto, unfolding(config_lines::specs::Kinds::line_in, crate::specs::Steps::values_after))]
pub fn values_after(applies: bool, old: Resolved, line: Option<LineKind<'_>>) -> Resolved
    requires { Parts line }
    ensures { result ≡ values_after applies old (line_in line.entry) }
{
    match line {
        Some(LineKind::Pair(key, value)) if applies => pairs::superseded(old, key, value),
        _ => old,
    }
}

// The same, where key and value are yet to be trimmed.
#[tactic(auto, unfolding(config_lines::specs::Kinds::trimmed_line_in, crate::specs::Steps::values_after))]
pub fn values_after_trimming(applies: bool, old: Resolved, line: Option<LineKind<'_>>) -> Resolved
    requires { Parts line }
    ensures { result ≡ values_after applies old (trimmed_line_in line.entry) }
{
    match line {
        Some(LineKind::Pair(key, value)) if applies => {
            pairs::superseded(old, trimmed(key), trimmed(value))
        }
        _ => old,
    }
}
