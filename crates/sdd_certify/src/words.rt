//! The words of a line.
ghost use Rattle.std.specs.Prelude.{◌≡◌, ◌==◌, map, IfOk};
ghost use Rattle.std.specs.List.{position};
ghost use Rattle.std.specs.Option.{option_copied};
ghost use Rattle.sdd_certify.specs.Told.{name_in, named_behind, told};
ghost use Rattle.sdd_verify.specs.Orders.{words_of};

use sdd_script::NoMemory;
use std::alloc::{AllocError, Global};

/// The words of a line, cut at each space.
pub(crate) fn words_of(alloc: Global, line: &[u8]) -> Result<Vec<&[u8]>, AllocError>
    ensures { IfOk result (λ words. map (λ w. w.now) words.items ≡ words_of line.now) }
{
    line.split(|byte| *byte == b' ').collect(alloc)
}

/// Where the first `#` is.
fn attempt_in(word: &[u8]) -> Option<usize>
    ensures { result ≡ position (λ c. c == 35) word.now }
{
    word.iter().position(|byte| *byte == b'#')
}

/// The name of the transaction in `NAME#A`.
fn name_in(word: &[u8]) -> &[u8]
    ensures { result.now ≡ name_in word.now }
{
    match attempt_in(word) {
        Some(place) => word.split_at(place).0,
        None => word,
    }
}

/// The transaction in the third of the words, where the second is this verb.
fn named_behind<'a>(verb: &[u8], words: &[&'a [u8]]) -> Option<&'a [u8]>
    ensures { option_copied result ≡ named_behind verb.now (map (λ w. w.now) words.now) }
{
    match words {
        [_, second, third, ..] => {
            if *second == verb {
                Some(name_in(third))
            } else {
                None
            }
        }
        _ => None,
    }
}

/// The transaction of which the line tells this. Takes memory for the words of the line.
pub(crate) fn told<'a>(
    alloc: Global,
    verb: &[u8],
    line: &'a [u8],
) -> Result<Option<&'a [u8]>, NoMemory>
    ensures { IfOk result (λ name. option_copied name ≡ told verb.now line.now) }
{
    let words = words_of(alloc, line)?;
    Ok(named_behind(verb, words.as_slice()))
}
