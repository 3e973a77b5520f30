//! What an update makes of a row.
ghost use Rattle.std.specs.Prelude.{◌≡◌, ◌-◌, IfOk, Option, slice_set, option_map};
ghost use Rattle.sdd_base.specs.Order.{column};
ghost use Rattle.sdd_lang.specs.Tuples.{held};
ghost use Rattle.sdd_lang.specs.Update.{added, assigned, replaced};

use crate::assign::Assign;
use crate::tuple::value_in;
use sdd_base::{NoMemory, Parcel, Row, Value};

/// The sum of a column's old value and a number, or None where it leaves the range of a whole number.
fn sum(old: Option<&Value>, by: &i64) -> Result<Option<Value>, NoMemory>
    ensures { IfOk result (λ value. value ≡ added (held old.entry) by.now) }
{
    match old {
        Some(Value::Int(number)) => match number.checked_add(*by) {
            Some(total) => Ok(Some(Value::Int(total))),
            None => Ok(None),
        },
        Some(Value::Text(text)) => Ok(Some(Value::Text(text.copy()?))),
        None => Ok(Some(Value::Int(*by))),
    }
}

/// Puts the value into the column, where it is there.
fn put(values: Vec<Value>, column: u32, value: Value) -> Vec<Value>
    ensures { result.items ≡ slice_set values.items (column - 1) value }
{
    let place = (column as usize).saturating_sub(1);
    let mut values = values;
    if place < values.len() {
        values[place] = value;
    }
    values
}

/// The values of the row after one more assignment, or None where a sum leaves the range of a whole
/// number.
fn assign(old: &Row, values: Vec<Value>, set: &Assign) -> Result<Option<Vec<Value>>, NoMemory>
    ensures { IfOk result (λ next. option_map (λ v. v.items) next ≡ assigned old.now values.items set.now) }
{
    match set {
        Assign::To { column, value } => Ok(Some(put(values, *column, value.copy()?))),
        Assign::Add { column, by } => match sum(value_in(old, *column), by)? {
            Some(value) => Ok(Some(put(values, *column, value))),
            None => Ok(None),
        }
    }
}

/// The row that stands in place of an old one, or None exactly where a sum with an old value leaves
/// the range of a whole number, also a sum that a later assignment overrides.
pub fn replace_columns(sets: &[Assign], old: &Row) -> Result<Option<Row>, NoMemory>
    ensures { IfOk result (λ row. row ≡ replaced sets.now old.now) }
{
    let mut values = old.to_vec()?;
    'sets: for set in sets {
        match assign(old, values, set)? {
            Some(next) => values = next,
            None => return Ok(None),
        }
    }
    Ok(Some(Row::from_vec(values)?))
}
