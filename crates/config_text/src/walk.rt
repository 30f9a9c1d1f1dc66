// The lines of a text, one after the other.
ghost use Rattle.utf8.specs.Unicode.{WellFormed};
ghost use Rattle.std.specs.Iterator.{item_count};
ghost use Rattle.config_text.specs.Walk.{Unmarked, lines_left, LinesWell, NextLine, LinesOf};

use config_lines::kinds::{LineKind, kind_of};
use config_lines::trimmed;
use line_ends::line_end;

// The lines that are left, each trimmed and of its kind: those of `rest`, or none.
#[derive(Drop)]
pub struct Lines<'a> {
    pub rest: Option<&'a [u8]>,
}

impl<'a> Iterator for Lines<'a> {
    type Item = Option<LineKind<'a>>;

    ghost can_next = { LinesWell };

    ghost next_gives = { NextLine };

    ghost remaining = { item_count lines_left };

    // Part of the three walks.
    #[inline(always)]
    fn next(&mut self) -> Option<Option<LineKind<'a>>> {
        let rest = self.rest?;
        let end = line_end(rest, 0);
        let line = trimmed(&rest[..end]);
        self.rest = rest.get(end + 1..);
        Some(kind_of(line))
    }
}

// A text without the one U+FEFF that it may start with.
fn unmarked(text: &[u8]) -> &[u8]
    requires { WellFormed text.now }
    ensures { Unmarked text.now result.now }
{
    text.strip_prefix("\u{FEFF}".as_bytes()).unwrap_or(text)
}

impl<'a> Lines<'a> {
    // All lines of a text.
    pub fn of(text: &'a [u8]) -> Lines<'a>
        requires { WellFormed text.now }
        ensures { LinesOf text.now result }
    {
        Lines {
            rest: Some(unmarked(text)),
        }
    }
}
