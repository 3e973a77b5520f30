//! Sets of values of a column, and the rows whose column is among them.
ghost use Rattle.std.specs.Prelude.{◌≡◌, [], OnOk, IfOk, filter, map};
ghost use Rattle.sdd_lang.specs.All.{column, with_values};
ghost use Rattle.sdd_copy.specs.Known.{is_known, known_use};

use sdd_lang::{NoMemory, Parcel, Row, RowList, Value, copy_value, value_in};
use std::alloc::Global;
use std::collections::BTreeSet;

/// The values of a column of rows, as a set. A column that isn't there holds the number 0.
pub(crate) fn values_of(
    alloc: Global,
    rows: &[Row],
    number: u32,
) -> Result<BTreeSet<Value>, NoMemory>
    ensures { IfOk result (λ known. known.keys ≡ with_values [] (map (λ row. column row number) rows.now)) }
{
    let mut known: BTreeSet<Value> = BTreeSet::new(alloc);
    for row in rows {
        known.insert(copy_value(value_in(row, number))?)?;
    }
    Ok(known)
}

/// The values as a set.
pub(crate) fn set_of(alloc: Global, values: &[Value]) -> Result<BTreeSet<Value>, NoMemory>
    ensures { IfOk result (λ known. known.keys ≡ with_values [] values.now) }
{
    let mut known: BTreeSet<Value> = BTreeSet::new(alloc);
    for value in values {
        known.insert(value.copy()?)?;
    }
    Ok(known)
}

fn is_known(known: &BTreeSet<Value>, row: &Row, number: u32) -> bool
    ensures { result ≡ is_known known.now.keys (column row.now number) }
{
    match value_in(row, number) {
        Some(value) => known.contains(value),
        None => known.contains(&Value::Int(0)),
    }
}

/// Keeps the rows whose column is known. Takes no memory.
fn keep_known(alloc: Global, rows: &mut RowList, number: u32, known: &BTreeSet<Value>)
    ensures { rows.new ≡ filter (λ row. is_known known.now.keys (column row number)) rows.old }
{
    let old = std::mem::replace(rows, RowList::from_vec(Vec::new(alloc)));
    let mut kept = old.into_vec();
    kept.retain(|row| is_known(known, row, number));
    *rows = RowList::from_vec(kept);
}

/// Where the rows are those of this use, keeps those whose column is known. Takes no memory.
pub(crate) fn reduce_use(
    alloc: Global,
    one: &mut (u32, RowList),
    use_no: u32,
    number: u32,
    known: &BTreeSet<Value>,
)
    ensures { one.new ≡ known_use use_no number known.now.keys one.old }
{
    if one.0 == use_no {
        keep_known(alloc, &mut one.1, number, known);
    }
}
