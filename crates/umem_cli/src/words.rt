ghost use Rattle.std.specs.Prelude.{◌≡◌, ◌↔◌, IsTrue, IfOk, map};
ghost use Rattle.std.specs.Str.{IsUtf8};
ghost use Rattle.std.specs.String.{string_bytes};
ghost use Rattle.umem_cli.specs.Words.{AreText};

use std::alloc::Global;
use umem_base::{NoMemory, Text};

/// Whether all words are UTF-8. It takes no memory, so that faulty words are never answered by want of it.
pub fn are_text(words: &[Text]) -> bool
    ensures { IsTrue result ↔ AreText words.now }
{
    for word in words {
        if !is_text(word) {
            return false;
        }
    }
    true
}

fn is_text(word: &Text) -> bool
    ensures { IsTrue result ↔ IsUtf8 word.now }
{
    str::from_utf8(word.as_slice()).is_ok()
}

/// The words as strings.
pub fn strings_of(alloc: Global, words: &[Text]) -> Result<Vec<String>, NoMemory>
    requires { AreText words.now }
    ensures { IfOk result (λ strings. map string_bytes strings.items ≡ words.now) }
{
    let mut strings = Vec::new(alloc);
    for word in words {
        strings.push(string_of(alloc, word)?)?;
    }
    Ok(strings)
}

fn string_of(alloc: Global, word: &Text) -> Result<String, NoMemory>
    requires { IsUtf8 word.now }
    ensures { IfOk result (λ string. string_bytes string ≡ word.now) }
{
    let text = str::from_utf8(word.as_slice());
    Ok(String::from_str(alloc, text.unwrap())?)
}
