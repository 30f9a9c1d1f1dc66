// Sets: which characters stand between brackets.
ghost use Rattle.std.specs.Prelude.{◌≡◌, false, not, ◌&&◌};
ghost use Rattle.rules.specs.Basics.{is};
ghost use Rattle.config_rules.specs.Sets.{escapes, dashes, named_after, names_at, names, fresh, in_set};
ghost use Rattle.glob_pass.specs.Kinds.{up_to, last_names};

use crate::code_points::{BACKSLASH, CLOSE_BRACKET, EXCLAMATION, MINUS};
use config_rules::Named;

// Before the first character.
const FRESH: Named = Named {
    low: None,
    dash: false,
    esc: false,
};

// Whether d escapes the next character.
#[tactic(auto, unfolding(config_rules::specs::Sets::escapes))]
fn escapes(n: Named, d: u32) -> bool
    ensures { result ≡ escapes n d }
{
    !n.esc & (d == BACKSLASH)
}

// Whether d is the `-` of a range.
#[tactic(auto, unfolding(config_rules::specs::Sets::dashes))]
fn dashes(n: Named, d: u32) -> bool
    ensures { result ≡ dashes n d }
{
    (d == MINUS) & n.low.is_some() & !n.dash & !n.esc
}

// Whether d ends the set.
fn ends_set(n: Named, d: u32) -> bool
    ensures { result ≡ (not n.esc && is "]" d) }
{
    !n.esc & (d == CLOSE_BRACKET)
}

// After d.
#[tactic(auto, unfolding(rules::specs::Basics::choose, config_rules::specs::Sets::named_after))]
fn named_after(n: Named, d: u32) -> Named
    ensures { result ≡ named_after n d }
{
    if escapes(n, d) {
        Named { esc: true, ..n }
    } else if dashes(n, d) {
        Named {
            dash: true,
            esc: false,
            ..n
        }
    } else if n.dash {
        FRESH
    } else {
        Named {
            low: Some(d),
            dash: false,
            esc: false,
        }
    }
}

// Whether at d the set names c: d ends a range that holds it, or no range starts before d.
#[tactic(auto, unfolding(rules::specs::Basics::choose, config_rules::specs::Sets::names_at, config_rules::specs::Sets::holds, config_rules::specs::Sets::is_low))]
fn names_at(n: Named, d: u32, c: u32) -> bool
    ensures { result ≡ names_at n d c }
{
    if escapes(n, d) || dashes(n, d) {
        false
    } else if n.dash {
        n.low.is_some_and(|low| (low <= c) & (c <= d))
    } else {
        n.low.is_some_and(|low| low == c)
    }
}

// Whether the end of the set names c.
#[tactic(auto, unfolding(crate::specs::Kinds::last_names, config_rules::specs::Sets::is_low))]
fn last_names(n: Named, c: u32) -> bool
    ensures { result ≡ last_names n c }
{
    n.low.is_some_and(|low| low == c) | (n.dash & (c == MINUS))
}

// Whether the characters of a set, up to its end, name c.
fn names(set: &[u32], c: u32) -> bool
    ensures { result ≡ names fresh (up_to false set.now) c }
{
    let mut n = FRESH;
    for d in set {
        if ends_set(n, *d) {
            return last_names(n, c);
        }
        if names_at(n, *d, c) {
            return true;
        }
        n = named_after(n, *d);
    }
    last_names(n, c)
}

// Whether the set whose characters these are, up to its end, names c.
pub fn in_set(set: &[u32], c: u32) -> bool
    ensures { result ≡ in_set (up_to false set.now) c }
{
    match set {
        [EXCLAMATION, others @ ..] => !names(others, c),
        _ => names(set, c),
    }
}
