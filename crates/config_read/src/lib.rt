// C-12: the values of our .editorconfig files for a path.
//   levels     the directories of a path, from the nearest outward, and the text of each
//   refusals   7, 4 and 8, each over all texts
#![tactic(auto)]

pub mod levels;
pub mod refusals;

ghost use Rattle.std.specs.Prelude.{◌≡◌};
ghost use Rattle.config_rules.specs.Call.{read_editor_config};
ghost use Rattle.config_read.specs.Refusals.{bytes_of};

use config_rules::ConfigRefusal;
use rules::Resolved;

// The whole call: refusals 7, 4 and 8, then the values of all texts, the nearest applied last.
pub fn read(path: &[u8], texts: &[&[u8]]) -> Result<Resolved, ConfigRefusal>
    ensures { result ≡ read_editor_config path.now (bytes_of texts.now) }
{
    if let Some(why) = refusals::worst_of(path, texts) {
        return Err(why);
    }
    let p = levels::unslashed(path);
    Ok(levels::resolved(p, levels::nearest(p), texts))
}
