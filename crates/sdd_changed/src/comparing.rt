//! Whether two databases are one, as far as changes may tell them apart.
ghost use Rattle.std.specs.Prelude.{◌≡◌, IfOk, true};

use crate::changed::Changed;
use crate::own_conditions::has_key;
use sdd_base::is_same;
use sdd_lang::{Catalogue, Change, Entry, NoMemory, RelNo, Source};
use sdd_plain::relation_of;
use std::alloc::Global;

fn is_same_entry(a: &Entry, b: &Entry) -> bool
    ensures { a.now ≡ b.now → result ≡ true }
{
    a.key == b.key && is_same(&a.row, &b.row)
}

fn are_same_entries(a: &[Entry], b: &[Entry]) -> bool
    ensures { a.now ≡ b.now → result ≡ true }
{
    if a.len() != b.len() {
        return false;
    }
    'entries: for i in 0..a.len() {
        if !is_same_entry(&a[i], &b[i]) {
            return false;
        }
    }
    true
}

/// Whether both databases have the same row at the key of the relation.
fn are_same_at(
    alloc: Global,
    catalogue: &Catalogue,
    a: &Changed,
    b: &Changed,
    rel: RelNo,
    key: i64,
) -> Result<bool, NoMemory>
    ensures { IfOk result (λ same. a.now ≡ b.now → same ≡ true) }
{
    let conds = vec![in alloc; has_key(key_column(catalogue, rel), key)]?;
    let in_a = a.find_matching(alloc, 0, rel, conds.as_slice())?;
    let in_b = b.find_matching(alloc, 0, rel, conds.as_slice())?;
    Ok(are_same_entries(in_a.as_slice(), in_b.as_slice()))
}

/// The key column of the relation, or 0 where the relation isn't there.
fn key_column(catalogue: &Catalogue, rel: RelNo) -> u32 {
    if 1 <= rel.0 && rel.0 <= catalogue.relations() {
        catalogue.relation(rel).key
    } else {
        0
    }
}

/// Whether both databases have the same rows wherever one of these changes is.
pub fn are_same_where(
    alloc: Global,
    catalogue: &Catalogue,
    a: &Changed,
    b: &Changed,
    changes: &[Change],
) -> Result<bool, NoMemory>
    ensures { IfOk result (λ same. a.now ≡ b.now → same ≡ true) }
{
    'changes: for change in changes {
        let rel = RelNo(relation_of(catalogue, change.frag));
        if !are_same_at(alloc, catalogue, a, b, rel, change.key)? {
            return Ok(false);
        }
    }
    Ok(true)
}
