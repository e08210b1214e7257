//! Which words are text.
ghost use Rattle.std.specs.Prelude.{◌≡◌, true, false, map, IfOk, MatchOption};
ghost use Rattle.command_words.specs.Texts.{are_texts, are_words};

use pv_base::bytes::Bytes;
use pv_base::want::Memory;
use std::alloc::Global;

/// The words as text, unless one of them is not UTF-8.
fn texts<'a>(alloc: Global, words: &'a [Bytes]) -> Result<Option<Vec<&'a str>>, Memory>
    ensures { IfOk result (λ o. MatchOption o (are_texts words.entry.now ≡ false) (λ v. (are_texts words.entry.now ≡ true) × (map (λ s. s.now) v.items ≡ words.entry.now))) }
{
    let mut all = Vec::new(alloc);
    for word in words {
        match str::from_utf8(word.as_slice()) {
            Ok(text) => all.push(text)?,
            Err(_) => return Ok(None),
        }
    }
    Ok(Some(all))
}

/// The words as text, unless there is none, or one of them is not UTF-8.
pub fn words_as_texts<'a>(alloc: Global, words: &'a [Bytes]) -> Result<Option<Vec<&'a str>>, Memory>
    ensures { IfOk result (λ o. MatchOption o (are_words words.entry.now ≡ false) (λ v. (are_words words.entry.now ≡ true) × (map (λ s. s.now) v.items ≡ words.entry.now))) }
{
    if words.is_empty() {
        return Ok(None);
    }
    texts(alloc, words)
}
