// The words of a command.
ghost use Rattle.std.specs.Prelude.{◌≡◌, ◌↔◌, ◌∷◌, [], IsTrue, IfOk, IfErr, map, codes, string_bytes};
ghost use Rattle.container_texts.specs.Words.{IsFolder, IsReadTo};

/// Whether a word may be a folder: it isn't empty, and doesn't begin with a minus sign.
fn is_folder(word: &[u8]) -> bool
    ensures { IsTrue result ↔ IsFolder word.now }
{
    match word {
        [] => false,
        [first, ..] => *first != b'-',
    }
}

/// Whether a word is the command's.
fn is_run(word: &[u8]) -> bool
    ensures { IsTrue result ↔ (word.now ≡ codes "run") }
{
    word == b"run".as_slice()
}

/// The folder of the command `run`, or the place of the first word that is refused, from 1.
///
/// The words are those behind the program's name.
pub fn read_words(words: &[String]) -> Result<&str, u64>
    ensures command { IfOk result
        (λ folder. (map string_bytes words.now ≡ codes "run" ∷ folder.now ∷ [])
        × IsFolder folder.now) }
    ensures refused { IfErr result (λ place. IsReadTo (map string_bytes words.now) place) }
{
    if words.is_empty() || !is_run(words[0].as_bytes()) {
        return Err(1);
    }
    if words.len() == 1 || !is_folder(words[1].as_bytes()) {
        return Err(2);
    }
    if words.len() == 2 {
        Ok(words[1].as_str())
    } else {
        Err(3)
    }
}
