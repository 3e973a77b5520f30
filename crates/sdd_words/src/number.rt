//! Numbers by their one spelling.
ghost use Rattle.std.specs.Prelude.{◌≡◌, ◌↔◌, ◌<◌, ◌^◌, ℕ, ℤ, IsTrue, IfSome, IfNone, FitsSigned};
ghost use Rattle.std.specs.Int.{w64};
ghost use Rattle.std.specs.Fmt.{decimal, signed_decimal};
ghost use Rattle.sdd_words.specs.Number.{number_of};

use itoa::Buffer;

fn is_spelling(word: &str, number: i64) -> bool
    ensures { IsTrue result ↔ (word.now ≡ signed_decimal number) }
{
    let mut buffer = Buffer::new();
    buffer.format(number) == word
}

fn read_int(word: &str) -> Option<i64>
    ensures found { IfSome result (λ z. word.now ≡ signed_decimal z) }
    ensures none { IfNone result ((z : ℤ) → FitsSigned w64 z → word.now ≡ signed_decimal z → ⊥) }
    ensures exact { result ≡ number_of word.now }
{
    match word.parse::<i64>() {
        Ok(number) if is_spelling(word, number) => Some(number),
        _ => None,
    }
}

/// The whole number that bytes spell: decimal, without a plus sign or leading zeros, and no `-0`.
/// None exactly where they spell none, or one past 64 bits.
#[tactic(auto, using(crate::proofs::Numbers::number_of_other_bytes))]
pub fn number_in(word: &[u8]) -> Option<i64>
    ensures { result ≡ number_of word.now }
{
    match std::str::from_utf8(word) {
        Ok(word) => read_int(word),
        Err(_) => None,
    }
}

fn is_count_spelling(word: &str, count: u32) -> bool
    ensures { IsTrue result ↔ (word.now ≡ decimal count) }
{
    let mut buffer = Buffer::new();
    buffer.format(count) == word
}

/// The number of 32 bits that a word spells: decimal, without leading zeros. None exactly where it
/// spells none, or one past 32 bits.
pub fn read_count(word: &str) -> Option<u32>
    ensures found { IfSome result (λ n. word.now ≡ decimal n) }
    ensures none { IfNone result ((n : ℕ) → n < 2 ^ 32 → word.now ≡ decimal n → ⊥) }
{
    match word.parse::<u32>() {
        Ok(count) if is_count_spelling(word, count) => Some(count),
        _ => None,
    }
}
