// The directories of a path, and the values that the texts in them set.
ghost use Rattle.std.specs.Prelude.{◌≡◌, ◌≤◌, length};
ghost use Rattle.utf8.specs.Unicode.{WellFormed};
ghost use Rattle.config_text.specs.Walk.{Readable};
ghost use Rattle.config_read.specs.Levels.{Unslashed, LevelFrom, LevelAt, Nearest, Above, resolved_at};
ghost use Rattle.config_read.specs.Refusals.{bytes_of, AllAccepted};

use rules::Resolved;

// The path without its leading slash.
pub fn unslashed(path: &[u8]) -> &[u8]
    requires { WellFormed path.now }
    ensures { Unslashed path.now result.now }
{
    match path {
        [b'/', rest @ ..] => rest,
        _ => path,
    }
}

// Where what follows the last slash before e starts: behind it, or at the path's start.
fn level_from(p: &[u8], e: usize) -> usize
    requires well_formed { WellFormed p.now }
    requires e_in_bounds { e ≤ length p.now }
    ensures { LevelFrom p.now e result }
{
    p[..e].iter().rposition(|c| *c == b'/').map_or(0, |i| i + 1)
}

// Where the path relative to the file's own directory starts.
pub fn nearest(p: &[u8]) -> usize
    requires { WellFormed p.now }
    ensures { Nearest p.now result }
{
    level_from(p, p.len())
}

// The same one directory up: none above the top, and none that counts above a root.
#[tactic(auto, using(crate::proofs::LevelLaws::above_top, crate::proofs::LevelLaws::above_root, crate::proofs::LevelLaws::above_next))]
pub fn above(p: &[u8], from: usize, text: &[u8]) -> Option<usize>
    requires { WellFormed p.now × LevelAt p.now from × Readable text.now }
    ensures { Above p.now text.now from result }
{
    if from == 0 || config_text::is_root(text) {
        None
    } else {
        Some(level_from(p, from - 1))
    }
}

// The values that texts set, of which the first is in the directory that the path from `from` on is relative to, and
// each next one up. The farthest that counts is read first.
pub fn resolved(p: &[u8], from: usize, texts: &[&[u8]]) -> Resolved
    requires { WellFormed p.now × LevelAt p.now from × AllAccepted (bytes_of texts.now) }
    ensures { result ≡ resolved_at p.now from (bytes_of texts.now) }
{
    let [text, farther @ ..] = texts else {
        return Resolved::default();
    };
    let old = match above(p, from, text) {
        Some(up) => resolved(p, up, farther),
        None => Resolved::default(),
    };
    config_text::settings(text, &p[from..], old)
}
