//! Conditions on the rows of one relation.
ghost use Rattle.std.specs.Prelude.{◌≡◌, ◌∷◌, [], IfOk, map};
ghost use Rattle.sdd_lang.specs.All.{restrictions_of};
ghost use Rattle.sdd_changed.specs.Conditions.{has_key, on_first_part, own_conditions};

use sdd_lang::{Condition, NoMemory, Op, Ref, Restriction, Value, restrictions_of};
use std::alloc::Global;

/// The restriction as a condition on the rows of one relation.
fn condition_of(restriction: Restriction) -> Condition
    ensures { result ≡ on_first_part restriction }
{
    let Restriction { column, op, value } = restriction;
    Condition::Const {
        left: Ref { part: 1, column },
        op,
        value,
    }
}

/// The conditions that compare a column of the part with a constant, as conditions on the rows of its
/// relation alone.
pub(crate) fn own_conditions(
    alloc: Global,
    part: usize,
    conds: &[Condition],
) -> Result<Vec<Condition>, NoMemory>
    ensures { IfOk result (λ own. own.items ≡ own_conditions part conds.now) }
{
    let mut own = Vec::new(alloc);
    'restrictions: for restriction in restrictions_of(alloc, part, conds)?.into_vec() {
        own.push(condition_of(restriction))?;
    }
    Ok(own)
}

/// The condition that a row of one relation has this key in the relation's key column.
pub(crate) fn has_key(column: u32, key: i64) -> Condition
    ensures { result ≡ has_key column key }
{
    Condition::Const {
        left: Ref { part: 1, column },
        op: Op::Eq,
        value: Value::Int(key),
    }
}
