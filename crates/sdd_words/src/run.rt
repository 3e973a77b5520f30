//! The bytes of a text up to its next quote or backslash, which are spelled as they are.
ghost use Rattle.std.specs.Prelude.{◌≡◌};
ghost use Rattle.std.specs.List.{position_or_len};
ghost use Rattle.sdd_words.specs.Words.{is_special};

use memchr::memchr2;

/// Whether a byte stands after a backslash in a text.
pub fn is_special(byte: u8) -> bool
    ensures { result ≡ is_special byte }
{
    byte == b'"' || byte == b'\\'
}

/// How many bytes of a text stand before its first quote or backslash. Costs time linear in these.
#[tactic(auto, using(crate::proofs::Runs::run_before, crate::proofs::Runs::run_of_all))]
pub fn run_length(text: &[u8]) -> usize
    ensures { result ≡ position_or_len is_special text.now }
{
    match memchr2(b'"', b'\\', text) {
        Some(place) => place,
        None => text.len(),
    }
}
