//! Texts of words.
ghost use Rattle.std.specs.Prelude.{◌≡◌, IfOk, MatchOption, true, false};
ghost use Rattle.std.specs.List.{list_all};
ghost use Rattle.std.specs.Str.{is_utf8};
ghost use Rattle.sdd_words.specs.Texts.{has_newline, is_text, is_sound};

use crate::token::Token;
use crate::tokens::Tokens;
use sdd_base::{MAX_TEXT_BYTES, NoMemory};
use std::alloc::Global;

/// The text of the bytes, or None exactly where they aren't UTF-8. Takes no memory.
#[tactic(auto, using(crate::proofs::Texts::is_text, crate::proofs::Texts::is_no_text))]
pub fn text_of(bytes: &[u8]) -> Option<&str>
    ensures { MatchOption result (is_utf8 bytes.now ≡ false) (λ s. (s.now ≡ bytes.now) × (is_utf8 bytes.now ≡ true)) }
{
    match std::str::from_utf8(bytes) {
        Ok(text) => Some(text),
        Err(_) => None,
    }
}

fn has_newline(bytes: &[u8]) -> bool
    ensures { result ≡ has_newline bytes.now }
{
    bytes.iter().any(|byte| *byte == b'\n')
}

fn is_utf8(bytes: &[u8]) -> bool
    ensures { result ≡ is_utf8 bytes.now }
{
    match text_of(bytes) {
        Some(_) => true,
        None => false,
    }
}

/// Whether the bytes are a text: at most `MAX_TEXT_BYTES` bytes of UTF-8 without a newline. Takes no memory.
pub fn is_text(bytes: &[u8]) -> bool
    ensures { result ≡ is_text bytes.now }
{
    bytes.len() <= MAX_TEXT_BYTES && !has_newline(bytes) && is_utf8(bytes)
}

/// Whether a word that is written as a text is one.
fn is_sound(alloc: Global, word: &Token<'_>) -> Result<bool, NoMemory>
    ensures { IfOk result (λ sound. sound ≡ is_sound word.now) }
{
    match word.plain() {
        Some(_) => Ok(true),
        None => {
            let text = word.content(alloc)?;
            Ok(is_text(text.as_slice()))
        }
    }
}

fn all_sound(alloc: Global, words: &mut Tokens<'_>) -> Result<bool, NoMemory>
    ensures { IfOk result (λ sound. sound ≡ list_all is_sound words.old) }
{
    'words: while let Some(word) = words.next() {
        if !is_sound(alloc, &word)? {
            return Ok(false);
        }
    }
    Ok(true)
}

/// Whether each word that is written as a text is one. Costs time linear in the words, and memory for
/// the longest text.
pub fn are_sound(alloc: Global, words: &Tokens<'_>) -> Result<bool, NoMemory>
    ensures { IfOk result (λ sound. sound ≡ list_all is_sound words.now) }
{
    all_sound(alloc, &mut words.copy())
}
