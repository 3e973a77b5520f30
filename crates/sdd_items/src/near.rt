//! What restrictions admit: rows, and keys near these rows.
ghost use Rattle.std.specs.Prelude.{◌≡◌, ◌↔◌, All, IsTrue};
ghost use Rattle.std.specs.List.{list_all};
ghost use Rattle.sdd_lang.specs.All.{IsOfKeys, kind_of, meets};
ghost use Rattle.sdd_lang.specs.catalog.declared.parts.Kind.TheVariants.{Int};

use sdd_lang::{Restriction, Row, Value, compare, value_in};

fn is_met(row: &Row, restriction: &Restriction) -> bool
    ensures { result ≡ meets row.now restriction.now }
{
    let value = value_in(row, restriction.column);
    restriction
        .op
        .admits(compare(value, Some(&restriction.value)))
}

/// Whether the row meets all restrictions; a column that isn't there counts as the number 0.
pub fn meets_all(row: &Row, restrictions: &[Restriction]) -> bool
    ensures { result ≡ list_all (meets row.now) restrictions.now }
{
    restrictions
        .iter()
        .all(|restriction| is_met(row, restriction))
}

fn is_number(value: &Value) -> bool
    ensures { IsTrue result ↔ (kind_of value.now ≡ Int) }
{
    matches!(value, Value::Int(_))
}

fn is_of_keys(key: u32, restriction: &Restriction) -> bool
    ensures { IsTrue result ↔ IsOfKeys key restriction.now }
{
    restriction.column != key || is_number(&restriction.value)
}

/// Whether the restrictions compare the key column with whole numbers alone.
pub(crate) fn are_of_keys(key: u32, restrictions: &[Restriction]) -> bool
    ensures { IsTrue result ↔ All (IsOfKeys key) restrictions.now }
{
    restrictions
        .iter()
        .all(|restriction| is_of_keys(key, restriction))
}
