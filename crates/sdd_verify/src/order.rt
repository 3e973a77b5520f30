//! The order that an order line gives.
ghost use Rattle.std.specs.Prelude.{◌≡◌, ◌==◌, ◌≤◌, ◌∷◌, length};
ghost use Rattle.std.specs.List.{position};
ghost use Rattle.sdd_script.specs.All.{GivesReading, along, require};
ghost use Rattle.sdd_verify.specs.Flaws.{line_in};
ghost use Rattle.sdd_verify.specs.Orders.{names_on, order_on, words_behind, words_of};
ghost use Rattle.sdd_verify.specs.Submitted.{named};

use crate::flaw::{Flaw, must, require};
use crate::submitted::Submitted;
use sdd_script::TxnNo;
use sdd_turns::is_in_turn;
use std::alloc::Global;

/// Where the first space is.
fn space_in(text: &[u8]) -> Option<usize>
    ensures { result ≡ position (λ c. c == 32) text.now }
{
    text.iter().position(|byte| *byte == b' ')
}

/// The word before the first space of a text, and the text from that space on.
#[tactic(auto, using(crate::proofs::WordsCut::cut_at_place, crate::proofs::WordsCut::cut_nowhere))]
fn cut_word(text: &[u8]) -> (&[u8], &[u8])
    ensures cut { words_of text.now ≡ result.0.now ∷ words_behind result.1.now }
    ensures no_longer { length result.1.now ≤ length text.now }
{
    match space_in(text) {
        Some(place) => text.split_at(place),
        None => (text, &[]),
    }
}

/// The number of the transaction of this name, without which the line is at fault.
fn number_of(alloc: Global, submitted: &Submitted, line: u32, name: &[u8]) -> Result<TxnNo, Flaw>
    ensures { GivesReading line_in (λ number. number) result (require line (named submitted.now name.now)) }
{
    require(line, submitted.find_named(alloc, name)?)
}

/// The numbers of the transactions whose names stand in this text, each after a space.
#[tactic(auto, using(crate::proofs::WordsCut::name_read, crate::proofs::WordsCut::name_fails, crate::proofs::WordsCut::names_read, crate::proofs::WordsCut::names_begin))]
fn numbers_in(
    alloc: Global,
    submitted: &Submitted,
    line: u32,
    names: &[u8],
) -> Result<Vec<TxnNo>, Flaw>
    ensures { GivesReading line_in (λ order. order.items) result
        (along (λ _ name. require line (named submitted.now name)) 0 (words_behind names.now)) }
{
    let mut order = Vec::new(alloc);
    let mut rest = names;
    'names: while let [_, text @ ..] = rest {
        let (name, behind) = cut_word(text);
        let number = number_of(alloc, submitted, line, name)?;
        order.push(number)?;
        rest = behind;
    }
    Ok(order)
}

/// The numbers of the transactions that an order line names.
fn named_on(
    alloc: Global,
    submitted: &Submitted,
    number: u32,
    line: &[u8],
) -> Result<Vec<TxnNo>, Flaw>
    ensures { GivesReading line_in (λ order. order.items) result
        (along (λ _ name. require number (named submitted.now name)) 0 (names_on line.now)) }
{
    let (_, names) = cut_word(line);
    numbers_in(alloc, submitted, number, names)
}

/// The order that the order line with this number gives.
pub(crate) fn read_order(
    alloc: Global,
    submitted: &Submitted,
    classes: &[u32],
    number: u32,
    line: &[u8],
) -> Result<Vec<TxnNo>, Flaw>
    ensures { GivesReading line_in (λ order. order.items) result (order_on submitted.now classes.now number line.now) }
{
    let order = named_on(alloc, submitted, number, line)?;
    must(number, is_in_turn(alloc, classes, order.as_slice())?)?;
    Ok(order)
}
