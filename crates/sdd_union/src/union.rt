ghost use Rattle.std.specs.Prelude.{◌≡◌, IfOk, OnOk};
ghost use Rattle.sdd_base.specs.Order.{with_values};

use sdd_base::{Listed, NoMemory, Parcel, Value};
use std::alloc::Global;
use std::collections::BTreeSet;

/// Puts values into the union. Out of memory leaves some of them in it. Costs for each value a
/// search among those that are there.
pub fn unite(union: &mut BTreeSet<Value>, values: Listed<Value>) -> Result<(), NoMemory>
    ensures { OnOk result (union.new.keys ≡ with_values union.old.keys values) }
{
    for value in values.into_vec() {
        union.insert(value)?;
    }
    Ok(())
}

/// The values of a set, ascending, each copied; its one error is out of memory.
pub fn list_values(alloc: Global, values: &BTreeSet<Value>) -> Result<Listed<Value>, NoMemory>
    ensures { IfOk result (λ list. list ≡ values.now.keys) }
{
    let mut list = Vec::with_capacity(alloc, values.len())?;
    for value in values {
        list.push(value.copy()?)?;
    }
    Ok(Listed::from_vec(list))
}
