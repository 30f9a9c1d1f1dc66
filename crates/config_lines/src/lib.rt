// The lines of an .editorconfig text, by bytes.
#![tactic(auto)]

pub mod kinds;
pub mod number;
pub mod pairs;
pub mod values;

ghost use Rattle.std.specs.Prelude.{◌≡◌, false};
ghost use Rattle.std.specs.Option.{MatchOption};
ghost use Rattle.utf8.specs.Unicode.{WellFormed};
ghost use Rattle.rules.specs.Basics.{same};
ghost use Rattle.config_rules.specs.Lines.{lower, has_eq};
ghost use Rattle.config_lines.specs.Words.{EqAt, Trimmed};

use utf8::{trim_end, trim_start};

// Whether a key or a value is the word, which is in lower case.
pub fn is_word(s: &[u8], word: &[u8]) -> bool
    ensures { result ≡ same (lower s.now) word.now }
{
    s.len() == word.len()
        && s.iter()
            .zip(word)
            .all(|(c, w)| c.to_ascii_lowercase() == *w)
}

// The place of the first `=`.
pub fn eq_at(line: &[u8]) -> Option<usize>
    ensures { MatchOption result (has_eq line.now ≡ false) (EqAt line.now) }
{
    line.iter().position(|c| *c == b'=')
}

// What is left of a well-formed slice without the white space at its ends.
pub fn trimmed(s: &[u8]) -> &[u8]
    requires { WellFormed s.now }
    ensures { Trimmed s.now result.now }
{
    let from = trim_start(s);
    let n = trim_end(&s[from..]);
    &s[from..from + n]
}
