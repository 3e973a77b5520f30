//! The columns that a statement reads of a part.
ghost use Rattle.std.specs.Prelude.{◌≡◌, fold, IfOk, OnOk};
ghost use Rattle.std.specs.List.{flat_map};
ghost use Rattle.std.specs.BTreeSet.{insert_key};
ghost use Rattle.std.specs.Ordering.{nat_cmp};
ghost use Rattle.sdd_lang.specs.All.{IsRelation};
ghost use Rattle.sdd_robust_laws.specs.Accesses.{column_of_part, columns_read, condition_columns};

use sdd_lang::{Catalogue, Condition, NoMemory, Ref, RelNo};
use std::alloc::Global;
use std::collections::BTreeSet;

/// The columns of the part that are named in conditions and in what is listed, and the key column,
/// ascending without repeats. Costs a logarithmic step for each that is named.
pub(crate) fn columns_read(
    alloc: Global,
    catalogue: &Catalogue,
    conds: &[Condition],
    out: &[Ref],
    part: usize,
    rel: RelNo,
) -> Result<BTreeSet<u32>, NoMemory>
    requires { IsRelation catalogue.now rel.0 }
    ensures { IfOk result (λ columns. columns.keys ≡ columns_read catalogue.now conds.now out.now part rel) }
{
    let mut columns = BTreeSet::new(alloc);
    columns.insert(catalogue.relation(rel).key)?;
    add_conditions(&mut columns, conds, part)?;
    add_listed(&mut columns, out, part)?;
    Ok(columns)
}

/// Adds the columns of the part that conditions name.
fn add_conditions(
    columns: &mut BTreeSet<u32>,
    conds: &[Condition],
    part: usize,
) -> Result<(), NoMemory>
    ensures { OnOk result (columns.new.keys
        ≡ fold (λ ks k. insert_key nat_cmp ks k) columns.old.keys (flat_map (condition_columns part) conds.now)) }
{
    'conds: for cond in conds {
        add_condition(columns, cond, part)?;
    }
    Ok(())
}

/// Adds the columns of the part that a condition names.
fn add_condition(columns: &mut BTreeSet<u32>, cond: &Condition, part: usize) -> Result<(), NoMemory>
    ensures { OnOk result (columns.new.keys
        ≡ fold (λ ks k. insert_key nat_cmp ks k) columns.old.keys (condition_columns part cond.now)) }
{
    match cond {
        Condition::Const {
            left,
            op: _,
            value: _,
        } => add_column(columns, left, part),
        Condition::Same { left, right } => {
            add_column(columns, left, part)?;
            add_column(columns, right, part)
        }
    }
}

/// Adds the columns of the part that are listed.
fn add_listed(columns: &mut BTreeSet<u32>, out: &[Ref], part: usize) -> Result<(), NoMemory>
    ensures { OnOk result (columns.new.keys
        ≡ fold (λ ks k. insert_key nat_cmp ks k) columns.old.keys (flat_map (column_of_part part) out.now)) }
{
    'out: for at in out {
        add_column(columns, at, part)?;
    }
    Ok(())
}

/// Adds the column, where it is of the part.
fn add_column(columns: &mut BTreeSet<u32>, at: &Ref, part: usize) -> Result<(), NoMemory>
    ensures { OnOk result (columns.new.keys
        ≡ fold (λ ks k. insert_key nat_cmp ks k) columns.old.keys (column_of_part part at.now)) }
{
    if at.part as usize == part {
        columns.insert(at.column)?;
    }
    Ok(())
}
