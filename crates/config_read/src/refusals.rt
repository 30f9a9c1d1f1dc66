// Refusals 7, 4 and 8 over all texts.
ghost use Rattle.std.specs.Prelude.{◌≡◌, max};
ghost use Rattle.config_read.specs.Refusals.{bytes_of, rank_number, rank_of, path_rank, worst};

use config_rules::ConfigRefusal;

// The bytes that a text may have.
const MAX_TEXT: usize = 65536;

// The one that is told, if there is any.
pub fn worse(a: Option<ConfigRefusal>, b: Option<ConfigRefusal>) -> Option<ConfigRefusal>
    ensures { rank_number result ≡ max (rank_number a) (rank_number b) }
{
    a.max(b)
}

fn of_text(text: &[u8]) -> Option<ConfigRefusal>
    ensures { rank_number result ≡ rank_of text.now }
{
    if MAX_TEXT < text.len() {
        return Some(ConfigRefusal::LongText);
    }
    if utf8::well_formed_prefix(text) != text.len() {
        return Some(ConfigRefusal::NotUtf8);
    }
    if config_text::has_long_name(text) {
        return Some(ConfigRefusal::LongName);
    }
    None
}

fn of_path(path: &[u8]) -> Option<ConfigRefusal>
    ensures { rank_number result ≡ path_rank path.now }
{
    if utf8::well_formed_prefix(path) != path.len() {
        return Some(ConfigRefusal::NotUtf8);
    }
    None
}

// Of the path and all texts.
pub fn worst_of(path: &[u8], texts: &[&[u8]]) -> Option<ConfigRefusal>
    ensures { rank_number result ≡ max (path_rank path.now) (worst (bytes_of texts.now)) }
{
    let mut refusal = of_path(path);
    for text in texts {
        refusal = worse(refusal, of_text(text));
    }
    refusal
}
