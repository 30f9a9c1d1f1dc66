// A pair supersedes the value of its key, and of no other.
ghost use Rattle.std.specs.Prelude.{◌≡◌};
ghost use Rattle.std.specs.Bool.{MatchBool};
ghost use Rattle.rules.specs.Basics.{same};
ghost use Rattle.config_rules.specs.Lines.{lower};
ghost use Rattle.config_rules.specs.Values.{superseded};

use crate::{is_word, values};
use rules::Resolved;

// What `value` reads where k is the key, and else the old value.
fn set<T: Copy, F: FnOnce() -> T>(old: T, key: &[u8], k: &[u8], value: F) -> T
    requires { F.IsAlwaysCallable value }
    ensures { MatchBool (same (lower k.now) key.now) (F.post value result) (result ≡ old) }
{
    if is_word(k, key) { value() } else { old }
}

// The values after a pair.
pub fn superseded(r: Resolved, k: &[u8], v: &[u8]) -> Resolved
    ensures { result ≡ superseded r (lower k.now) (lower v.now) }
{
    Resolved {
        style: set(r.style, b"indent_style", k, || values::style_of(v)),
        size: set(r.size, b"indent_size", k, || values::size_of(v)),
        tab: set(r.tab, b"tab_width", k, || values::tab_of(v)),
        max: set(r.max, b"max_line_length", k, || values::max_of(v)),
        ending: set(r.ending, b"end_of_line", k, || values::ending_of(v)),
        newline: set(
            r.newline,
            b"insert_final_newline",
            k,
            || values::newline_of(v),
        ),
    }
}
