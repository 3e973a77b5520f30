//! Orders in which transactions keep their turns.
ghost use Rattle.std.specs.Prelude.{◌≡◌, IfOk};
ghost use Rattle.std.specs.Option.{option_copied};
ghost use Rattle.sdd_turns.specs.Turns.{allows, class_of, is_in_turn};

use sdd_base::{NoMemory, TxnNo};
use std::alloc::Global;
use std::collections::BTreeMap;

/// The class of a submitted transaction; a number past the last has class 0.
fn class_of(classes: &[u32], number: TxnNo) -> u32
    ensures { result ≡ class_of classes.now number }
{
    let place = (number.0 as usize).saturating_sub(1);
    match classes.get(place) {
        Some(class) => *class,
        None => 0,
    }
}

/// Whether a transaction may stand after the last one of its class.
fn may_come_after(last: Option<&u32>, number: TxnNo) -> bool
    ensures { result ≡ allows (option_copied last.entry) number.0 }
{
    match last {
        Some(last) => *last < number.0,
        None => true,
    }
}

/// Whether each transaction of an order may stand after those before it: none stands twice, and those of
/// one class stand by submission. Costs a logarithmic step for each.
pub fn is_in_turn(alloc: Global, classes: &[u32], order: &[TxnNo]) -> Result<bool, NoMemory>
    ensures { IfOk result (λ is. is ≡ is_in_turn classes.now order.now) }
{
    let mut last: BTreeMap<u32, u32> = BTreeMap::new(alloc);
    'order: for number in order {
        let class = class_of(classes, *number);
        if !may_come_after(last.get(&class), *number) {
            return Ok(false);
        }
        last.insert(class, number.0)?;
    }
    Ok(true)
}
