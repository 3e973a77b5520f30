ghost use Rattle.std.specs.Prelude.{◌≡◌, ◌++◌, ◌∷◌, [], true, MatchOption, IfOk, OnOk, if◌then◌else◌};
ghost use Rattle.sdd_words.specs.Keywords.{content, has_one_point};
ghost use Rattle.sdd_words.specs.Tokens.{IsSpelling, IsText, leads_on, unescaped, word_spelled};
ghost use Rattle.sdd_words.specs.Words.{Plain, Quoted};

use crate::point::has_one_point;
use sdd_base::NoMemory;
use std::alloc::Global;
use std::marker::Model;

/// A word as its line spells it. Takes no memory.
#[derive(Drop)]
pub struct Token<'a> {
    is_text: bool,
    /// Of a text what stands between its quotes.
    spelling: &'a [u8],
}

impl<'a> Model for Token<'a> {
    ghost use Rattle.sdd_words.specs.Tokens.{IsSpelling, word_spelled};
    ghost use Rattle.sdd_words.specs.Words.{Word as Meaning};

    ghost Value = { Meaning };

    ghost view = { λ t. word_spelled t.is_text t.spelling.now };

    ghost invariant = { λ t. IsSpelling t.is_text t.spelling.now };
}

/// Whether a byte of a text's spelling leads on to the next one.
fn leads_on(is_behind: bool, byte: u8) -> bool
    ensures { result ≡ leads_on is_behind byte }
{
    !is_behind && byte == b'\\'
}

fn add_byte(out: &mut Vec<u8>, leads_on: bool, byte: u8) -> Result<(), NoMemory>
    ensures { OnOk result (out.new.items ≡ (if leads_on then out.old.items else out.old.items ++ byte ∷ [])) }
{
    if !leads_on {
        out.push(byte)?;
    }
    Ok(())
}

/// The text that stands between quotes.
#[tactic(auto, using(crate::proofs::TextCuts::byte_read, crate::proofs::TextCuts::all_read))]
fn unescape(alloc: Global, spelling: &[u8]) -> Result<Vec<u8>, NoMemory>
    ensures { IfOk result (λ text. text.items ≡ unescaped spelling.now) }
{
    let mut text = Vec::new(alloc);
    let mut is_behind = false;
    let mut rest = spelling;
    'bytes: while let [byte, more @ ..] = rest {
        is_behind = leads_on(is_behind, *byte);
        add_byte(&mut text, is_behind, *byte)?;
        rest = more;
    }
    Ok(text)
}

impl<'a> Token<'a> {
    /// A word without quotes.
    pub(crate) fn plain_word(bytes: &'a [u8]) -> Self
        ensures { result ≡ Plain bytes.now }
    {
        Token {
            is_text: false,
            spelling: bytes,
        }
    }

    /// The text between quotes that has this spelling.
    pub(crate) fn from_quoted(spelling: &'a [u8]) -> Self
        requires { IsSpelling true spelling.now }
        ensures { result ≡ Quoted (unescaped spelling.now) }
    {
        Token {
            is_text: true,
            spelling,
        }
    }

    /// The bytes of a word without quotes, or None exactly where the word is a text.
    pub fn plain(&self) -> Option<&'a [u8]>
        ensures { MatchOption result (IsText self.now) (λ bytes. self.now ≡ Plain bytes.now) }
    {
        if self.is_text {
            None
        } else {
            Some(self.spelling)
        }
    }

    /// The bytes of the word, and of a text those that it stands for.
    pub fn content(&self, alloc: Global) -> Result<Vec<u8>, NoMemory>
        ensures { IfOk result (λ bytes. bytes.items ≡ content self.now) }
    {
        if self.is_text {
            unescape(alloc, self.spelling)
        } else {
            Ok(Vec::from_slice(alloc, self.spelling)?)
        }
    }

    /// Whether one point is in the word.
    #[tactic(auto, using(crate::proofs::TextPoints::one_point))]
    pub(crate) fn has_one_point(&self) -> bool
        ensures { result ≡ has_one_point (content self.now) }
    {
        let _ = self.is_text;
        has_one_point(self.spelling)
    }
}
