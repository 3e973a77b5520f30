ghost use Rattle.std.specs.Prelude.{◌≡◌, ◌≢◌, ◌<◌, ◌≤◌, ◌-◌, ◌∷◌, [], length, get_or, is_some, false, None, Some, IfSome, MatchOption};
ghost use Rattle.std.specs.List.{position, position_or_len};
ghost use Rattle.sdd_words.specs.Tokens.{IsLeft, before, behind_space, is_space, passes_to, quote_from, words_left};
ghost use Rattle.sdd_words.specs.Forms.{cut_at, from_key, not_empty, up_to};
ghost use Rattle.sdd_words.specs.Scan.{words_of};

use crate::keyword::has_key;
use crate::split::are_words;
use crate::token::Token;
use std::marker::Model;

/// The words that are left of a line, read from the front. Takes no memory.
#[derive(Drop)]
pub struct Tokens<'a> {
    bytes: &'a [u8],
}

impl<'a> Model for Tokens<'a> {
    ghost use Rattle.std.specs.Prelude.{List};
    ghost use Rattle.sdd_words.specs.Tokens.{IsLeft, words_left};
    ghost use Rattle.sdd_words.specs.Words.{Word};

    ghost Value = { List Word };

    ghost view = { λ t. words_left t.bytes.now };

    ghost invariant = { λ t. IsLeft t.bytes.now };
}

/// What follows the space after a word, or nothing.
fn behind_space(bytes: &[u8]) -> &[u8]
    ensures value { result.now ≡ behind_space bytes.now }
    ensures length { length result.now ≡ length bytes.now - 1 }
{
    match bytes {
        [] => bytes,
        [_, rest @ ..] => rest,
    }
}

/// A word without quotes at the front, and what is left after it.
#[tactic(auto, using(crate::proofs::WordCuts::plain_cut, crate::proofs::WordCuts::plain_left))]
fn cut_plain<'a>(bytes: &'a [u8]) -> (Token<'a>, &'a [u8])
    requires left { IsLeft bytes.now }
    requires some { 0 < length bytes.now }
    requires plain { get_or bytes.now 0 0 ≢ 34 }
    ensures cut { words_left bytes.now ≡ result.0 ∷ words_left result.1.now }
    ensures left { IsLeft result.1.now }
    ensures shorter { length result.1.now < length bytes.now }
{
    let length = space_place(bytes);
    let (word, rest) = bytes.split_at(length);
    (Token::plain_word(word), behind_space(rest))
}

/// A text at the front, of whose spelling the first quote was read, and what is left after it.
#[tactic(auto, using(crate::proofs::WordCuts::text_cut, crate::proofs::WordCuts::text_left, crate::proofs::WordCuts::text_spelled))]
fn cut_text<'a>(bytes: &'a [u8]) -> (Token<'a>, &'a [u8])
    requires left { IsLeft (34 ∷ bytes.now) }
    ensures cut { words_left (34 ∷ bytes.now) ≡ result.0 ∷ words_left result.1.now }
    ensures left { IsLeft result.1.now }
    ensures shorter { length result.1.now ≤ length bytes.now }
{
    let length = quote_place(bytes);
    let (spelling, rest) = bytes.split_at(length);
    (
        Token::from_quoted(spelling),
        behind_space(behind_space(rest)),
    )
}

/// Where the first space is.
fn space_in(bytes: &[u8]) -> Option<usize>
    ensures { result ≡ position is_space bytes.now }
{
    bytes.iter().position(|byte| *byte == b' ')
}

/// How many bytes stand before the first space.
#[tactic(auto, using(crate::proofs::Points::place_at, crate::proofs::Points::no_place, crate::proofs::Points::place_below))]
fn space_place(bytes: &[u8]) -> usize
    ensures place { result ≡ position_or_len is_space bytes.now }
    ensures within { result ≤ length bytes.now }
{
    match space_in(bytes) {
        Some(place) => place,
        None => bytes.len(),
    }
}

/// Whether the byte after a byte of a text stands after a backslash, or None exactly where the byte is
/// the quote that ends the text.
fn passes_to(is_behind: bool, byte: u8) -> Option<bool>
    ensures { result ≡ passes_to is_behind byte }
{
    if is_behind {
        Some(false)
    } else if byte == b'"' {
        None
    } else {
        Some(byte == b'\\')
    }
}

/// How many bytes stand before the quote that ends a text.
#[tactic(auto, using(crate::proofs::TextCuts::passed_more, crate::proofs::TextCuts::passed_none, crate::proofs::TextCuts::passed_all))]
fn quote_place(text: &[u8]) -> usize
    ensures place { result ≡ quote_from false text.now }
    ensures within { result ≤ length text.now }
{
    let mut is_behind = false;
    let mut place = 0;
    let mut rest = text;
    'bytes: while let [byte, more @ ..] = rest {
        match passes_to(is_behind, *byte) {
            Some(to) => is_behind = to,
            None => return place,
        }
        place += 1;
        rest = more;
    }
    place
}

/// The first word, and what is left after it, or None exactly where nothing is left.
fn cut<'a>(bytes: &'a [u8]) -> Option<(Token<'a>, &'a [u8])>
    requires { IsLeft bytes.now }
    ensures cut { MatchOption result
        (words_left bytes.now ≡ [])
        (λ x. words_left bytes.now ≡ x.0 ∷ words_left x.1.now) }
    ensures left { IfSome result (λ x. IsLeft x.1.now) }
    ensures shorter { IfSome result (λ x. length x.1.now < length bytes.now) }
{
    match bytes {
        [] => None,
        [first, rest @ ..] => {
            if *first == b'"' {
                Some(cut_text(rest))
            } else {
                Some(cut_plain(bytes))
            }
        }
    }
}

/// The words of a line, or None exactly where it isn't words with one space between two. Costs time
/// linear in the line.
#[tactic(auto, using(crate::proofs::KeyCuts::some_words, crate::proofs::KeyCuts::no_words, crate::proofs::KeyCuts::line_left))]
pub fn words_of(line: &[u8]) -> Option<Tokens<'_>>
    ensures { MatchOption result (words_of line.now ≡ None) (λ words. words_of line.now ≡ Some words) }
{
    if are_words(line) {
        Some(Tokens { bytes: line })
    } else {
        None
    }
}

/// What is left from the first word on that is this keyword.
#[tactic(auto, using(crate::proofs::KeyCuts::key_found, crate::proofs::KeyCuts::key_later, crate::proofs::KeyCuts::key_nowhere))]
fn from_key<'a>(bytes: &'a [u8], key: &[u8]) -> &'a [u8]
    requires { IsLeft bytes.now }
    ensures from { words_left result.now ≡ from_key key.now (words_left bytes.now) }
    ensures left { IsLeft result.now }
{
    let mut rest = bytes;
    'words: while let Some((word, more)) = cut(rest) {
        if has_key(key, &word) {
            return rest;
        }
        rest = more;
    }
    rest
}

/// What stands before these bytes, the last ones of the others, and before the space there.
fn before<'a>(bytes: &'a [u8], rest: &[u8]) -> &'a [u8]
    ensures { result.now ≡ before bytes.now rest.now }
{
    if rest.is_empty() {
        return bytes;
    }
    let length = bytes.len().saturating_sub(rest.len()).saturating_sub(1);
    let (front, _) = bytes.split_at(length);
    front
}

impl<'a> Tokens<'a> {
    /// The same words.
    pub fn copy(&self) -> Tokens<'a>
        ensures { result ≡ self.now }
    {
        Tokens { bytes: self.bytes }
    }

    /// Whether a word is left.
    #[tactic(auto, using(crate::proofs::KeyCuts::has_bytes))]
    pub fn has_words(&self) -> bool
        ensures { result ≡ not_empty self.now }
    {
        !self.bytes.is_empty()
    }

    /// The next word, or None exactly where none is left.
    pub fn next(&mut self) -> Option<Token<'a>>
        ensures { MatchOption result
            ((self.old ≡ []) × (self.new ≡ []))
            (λ word. self.old ≡ word ∷ self.new) }
    {
        match cut(self.bytes) {
            Some((word, rest)) => {
                self.bytes = rest;
                Some(word)
            }
            None => None,
        }
    }

    /// The words before the first that is this keyword, and those from it on, all and none where none
    /// is. Costs time linear in the words.
    #[tactic(auto, using(crate::proofs::KeyCuts::front_words, crate::proofs::KeyCuts::front_left))]
    pub fn split_from(&self, key: &[u8]) -> (Tokens<'a>, Tokens<'a>)
        ensures before { result.0 ≡ up_to key.now self.now }
        ensures rest { result.1 ≡ from_key key.now self.now }
    {
        let rest = from_key(self.bytes, key);
        let front = before(self.bytes, rest);
        (Tokens { bytes: front }, Tokens { bytes: rest })
    }

    /// The words before and after the first that is this keyword, or None exactly where none is. Costs
    /// time linear in the words.
    #[tactic(auto, using(crate::proofs::KeyCuts::cut_found, crate::proofs::KeyCuts::cut_nowhere))]
    pub fn cut_at(&self, key: &[u8]) -> Option<(Tokens<'a>, Tokens<'a>)>
        ensures { MatchOption result
            (cut_at key.now self.now ≡ None)
            (λ x. cut_at key.now self.now ≡ Some (x.0, x.1)) }
    {
        let (front, mut behind) = self.split_from(key);
        match behind.next() {
            Some(_) => Some((front, behind)),
            None => None,
        }
    }

    /// The next two words, or None exactly where fewer are left.
    pub fn two(&mut self) -> Option<(Token<'a>, Token<'a>)>
        ensures { MatchOption result (length self.old < 2) (λ x. self.old ≡ x.0 ∷ x.1 ∷ self.new) }
    {
        let first = self.next()?;
        let second = self.next()?;
        Some((first, second))
    }

    /// The next three words, or None exactly where fewer are left.
    pub(crate) fn three(&mut self) -> Option<(Token<'a>, Token<'a>, Token<'a>)>
        ensures { MatchOption result
            (length self.old < 3)
            (λ x. self.old ≡ x.0 ∷ x.1 ∷ x.2 ∷ self.new) }
    {
        let first = self.next()?;
        let second = self.next()?;
        let third = self.next()?;
        Some((first, second, third))
    }

    /// The next four words, or None exactly where fewer are left.
    pub(crate) fn four(&mut self) -> Option<(Token<'a>, Token<'a>, Token<'a>, Token<'a>)>
        ensures { MatchOption result
            (length self.old < 4)
            (λ x. self.old ≡ x.0 ∷ x.1 ∷ x.2 ∷ x.3 ∷ self.new) }
    {
        let first = self.next()?;
        let second = self.next()?;
        let third = self.next()?;
        let fourth = self.next()?;
        Some((first, second, third, fourth))
    }

    /// The one word that is left, or None exactly where it isn't one.
    pub fn only_one(&mut self) -> Option<Token<'a>>
        ensures { MatchOption result (length self.old ≢ 1) (λ x. self.old ≡ x ∷ []) }
    {
        let first = self.next()?;
        if self.has_words() {
            return None;
        }
        Some(first)
    }

    /// The two words that are left, or None exactly where they aren't two.
    pub fn only_two(&mut self) -> Option<(Token<'a>, Token<'a>)>
        ensures { MatchOption result (length self.old ≢ 2) (λ x. self.old ≡ x.0 ∷ x.1 ∷ []) }
    {
        let first = self.next()?;
        let second = self.next()?;
        if self.has_words() {
            return None;
        }
        Some((first, second))
    }

    /// The three words that are left, or None exactly where they aren't three.
    pub fn only_three(&mut self) -> Option<(Token<'a>, Token<'a>, Token<'a>)>
        ensures { MatchOption result (length self.old ≢ 3) (λ x. self.old ≡ x.0 ∷ x.1 ∷ x.2 ∷ []) }
    {
        let (first, second, third) = self.three()?;
        if self.has_words() {
            return None;
        }
        Some((first, second, third))
    }
}
