// Our .editorconfig files, for a host.
ghost use Rattle.std.specs.Prelude.{[], ◌∷◌};
ghost use Rattle.config_read.specs.ConfigAnswered.{ConfigAnswered};

use config_rules::ConfigAnswer;

// The values that eight texts set for a path: the first from the file's own directory, each next from one up.
#[unsafe(no_mangle)]
pub extern "C" fn wirescript_read_editorconfig(
    path: &[u8],
    text_1: &[u8],
    text_2: &[u8],
    text_3: &[u8],
    text_4: &[u8],
    text_5: &[u8],
    text_6: &[u8],
    text_7: &[u8],
    text_8: &[u8],
) -> ConfigAnswer
    ensures { ConfigAnswered path.now (text_1.now ∷ text_2.now
        ∷ text_3.now ∷ text_4.now ∷ text_5.now ∷ text_6.now
        ∷ text_7.now ∷ text_8.now ∷ []) result }
{
    let texts = [
        text_1, text_2, text_3, text_4, text_5, text_6, text_7, text_8,
    ];
    config_read::read(path, &texts).into()
}
