//! The keys of the rows that may stand in a part.
ghost use Rattle.std.specs.Prelude.{◌≡◌, ◌↔◌, All, IfOk, IsTrue};
ghost use Rattle.sdd_lang.specs.catalog.declared.parts.Kind.TheVariants.{Int};
ghost use Rattle.sdd_lang.specs.All.{IsOfKeys, kind_of};
ghost use Rattle.sdd_plain.specs.Held.{AreKeysOf};

use sdd_lang::{Condition, Keys, NoMemory, Restriction, Value, allowed_keys, restrictions_of};
use std::alloc::Global;

fn is_number(value: &Value) -> bool
    ensures { IsTrue result ↔ (kind_of value.now ≡ Int) }
{
    matches!(value, Value::Int(_))
}

fn is_of_keys(key: u32, restriction: &Restriction) -> bool
    ensures { IsTrue result ↔ IsOfKeys key restriction.now }
{
    restriction.column != key || is_number(&restriction.value)
}

fn are_of_keys(key: u32, restrictions: &[Restriction]) -> bool
    ensures { IsTrue result ↔ All (IsOfKeys key) restrictions.now }
{
    restrictions
        .iter()
        .all(|restriction| is_of_keys(key, restriction))
}

/// Keys among which is that of each row that may stand in the part, where rows have their keys in
/// the column `key`: those that the part's restrictions allow, or all where one of these compares
/// the column with a text.
pub(crate) fn keys_of_part(
    alloc: Global,
    key: u32,
    part: usize,
    conds: &[Condition],
) -> Result<Keys, NoMemory>
    ensures { IfOk result (AreKeysOf part conds.now key) }
{
    let restrictions = restrictions_of(alloc, part, conds)?;
    if are_of_keys(key, restrictions.as_slice()) {
        return Ok(allowed_keys(key, restrictions.as_slice()));
    }
    Ok(Keys::all())
}
