//! What a data module begins with.
ghost use Rattle.std.specs.Prelude.{◌≡◌, ◌≤◌, ◌∷◌, ℕ, IfOk, IfSome, OnOk, IsTrue, length, map, fold, replicate, is_some, slice_index_or, true, false, Some, None};
ghost use Rattle.std.specs.List.{All};
ghost use Rattle.sdd_module.specs.All.{FitsStart, IsEntry, T, U, database_of, fragment_of, has_copy};
ghost use Rattle.sdd_module.specs.catalog.Catalogue.{holds_key};
ghost use Rattle.sdd_copy.specs.Copies.{Represent, is_here, with_change};
ghost use Rattle.sdd_rules.specs.dm.Copies.{first_row};
ghost use Rattle.sdd_dm.specs.Starts.{lent, own_rows, with_own};

use sdd_copy::{Copies, Space};
use sdd_module::{
    Catalogue, Change, ClassNo, DmNo, FragNo, NoMemory, Parcel, RelNo, Row, Site, Ts, key_of,
    law_rows_make_database,
};
use std::alloc::Global;
use std::collections::BTreeMap;

/// The sites that run the classes, from class 0 on.
pub fn sources(alloc: Global, catalogue: &Catalogue) -> Result<Vec<Site>, NoMemory>
    ensures { IfOk result (λ sites. sites.items ≡ U ∷ map (λ class. T class.tm) catalogue.now.classes) }
{
    let mut sites = Vec::with_capacity(alloc, catalogue.classes() as usize + 1)?;
    sites.push(Site::U)?;
    for place in 0..catalogue.classes() {
        sites.push(Site::T(catalogue.class(ClassNo(place + 1)).tm))?;
    }
    Ok(sites)
}

/// One `false` for each class: no head of a pipe waits.
pub fn no_waits(alloc: Global, classes: u32) -> Result<Vec<bool>, NoMemory>
    ensures { IfOk result (λ waits. waits.items ≡ replicate classes false) }
{
    let mut waits = Vec::with_capacity(alloc, classes as usize)?;
    for _ in 0..classes {
        waits.push(false)?;
    }
    Ok(waits)
}

/// No rows are held for so many classes.
pub fn no_spaces(alloc: Global, classes: u32) -> Result<Vec<Option<Space>>, NoMemory>
    ensures { IfOk result (λ spaces. spaces.items ≡ replicate classes None) }
{
    let mut spaces = Vec::with_capacity(alloc, classes as usize)?;
    for _ in 0..classes {
        spaces.push(None)?;
    }
    Ok(spaces)
}

/// The copies of a module, with the rows with which it begins.
///
/// O(n + k log k) for n rows, of which k are of its fragments; these are copied.
pub fn first_copies(
    alloc: Global,
    catalogue: &Catalogue,
    dm: DmNo,
    rows: &[(RelNo, Row)],
) -> Result<Copies, NoMemory>
    requires { All (FitsStart catalogue.now) rows.now }
    ensures live { IfOk result (λ copies. IsTrue copies.live) }
    ensures represent { IfOk result (λ copies. Represent copies.value
        (map (first_row catalogue.now) (database_of catalogue.now rows.now))) }
    ensures here { IfOk result (λ copies. (f : ℕ) →
        has_copy catalogue.now dm.0 f ≡ true → is_here copies.value f ≡ true) }
{
    law_rows_make_database(catalogue, rows);
    let keys = key_columns(alloc, catalogue, dm)?;
    let mut copies = Copies::new(alloc, keys.as_slice())?;
    let own = own_rows(alloc, catalogue, &copies, rows)?;
    write_rows(&mut copies, catalogue, &own)?;
    Ok(copies)
}

/// By fragment, from number 0 on, the key column of its relation where the module has a copy.
/// Number 0 is used for fragment 1.
fn key_columns(alloc: Global, catalogue: &Catalogue, dm: DmNo) -> Result<Vec<Option<u32>>, NoMemory>
    ensures { IfOk result (λ keys. (f : ℕ) → has_copy catalogue.now dm.0 f ≡ true
        → is_some (slice_index_or keys.items f None) ≡ true) }
{
    catalogue.law_is_sound();
    let mut keys = Vec::with_capacity(alloc, catalogue.fragments() as usize + 1)?;
    for number in 0..catalogue.fragments() + 1 {
        keys.push(key_column(catalogue, dm, number))?;
    }
    Ok(keys)
}

fn key_column(catalogue: &Catalogue, dm: DmNo, number: u32) -> Option<u32>
    requires { number ≤ length catalogue.now.fragments }
    ensures { is_some result ≡ has_copy catalogue.now dm.0 number }
{
    catalogue.law_is_sound();
    let frag = FragNo(number.max(1));
    if frag.0 > catalogue.fragments() || !catalogue.has_copy(dm, frag) {
        return None;
    }
    Some(catalogue.relation(catalogue.fragment(frag).rel).key)
}

/// The row of each item of a fragment with a copy, by relation and key: of two with one key the
/// later stands.
fn own_rows<'a>(
    alloc: Global,
    catalogue: &Catalogue,
    copies: &Copies,
    rows: &'a [(RelNo, Row)],
) -> Result<BTreeMap<(u32, i64), &'a Row>, NoMemory>
    requires live { IsTrue copies.now.live }
    requires rows { All (FitsStart catalogue.now) rows.now }
    ensures { IfOk result (λ own. map lent own.entries ≡ own_rows catalogue.now copies.now.value rows.now) }
{
    let mut own = BTreeMap::new(alloc);
    let mut before = None;
    for (rel, row) in rows {
        before = Some(add_row(&mut own, catalogue, copies, before, *rel, row)?);
    }
    Ok(own)
}

/// Adds a row, where its fragment has a copy. `before` is the fragment of the row before; that of
/// this row is given back.
fn add_row<'a>(
    own: &mut BTreeMap<(u32, i64), &'a Row>,
    catalogue: &Catalogue,
    copies: &Copies,
    before: Option<FragNo>,
    rel: RelNo,
    row: &'a Row,
) -> Result<FragNo, NoMemory>
    requires live { IsTrue copies.now.live }
    requires fits { FitsStart catalogue.now (rel, row.now) }
    requires before { IfSome before (λ frag. (1 ≤ frag.0) × (frag.0 ≤ length catalogue.now.fragments)) }
    ensures there { IfOk result (λ frag. (1 ≤ frag.0) × (frag.0 ≤ length catalogue.now.fragments)) }
    ensures entries { OnOk result (map lent own.new.entries
        ≡ with_own catalogue.now copies.now.value (map lent own.old.entries) (rel, row.now)) }
{
    let key = key_of(catalogue, rel, row);
    let frag = fragment_after(catalogue, before, rel, key);
    match copies.at(frag) {
        None => Ok(frag),
        Some(_) => {
            own.insert((rel.0, key), row)?;
            Ok(frag)
        }
    }
}

/// The fragment of a row, after a row of a fragment: rows of one fragment often stand together, so
/// that one is tried first.
fn fragment_after(catalogue: &Catalogue, before: Option<FragNo>, rel: RelNo, key: i64) -> FragNo
    requires before { IfSome before (λ frag. (1 ≤ frag.0) × (frag.0 ≤ length catalogue.now.fragments)) }
    requires from { 1 ≤ rel.0 }
    requires to { rel.0 ≤ length catalogue.now.relations }
    ensures there { (1 ≤ result.0) × (result.0 ≤ length catalogue.now.fragments) }
    ensures number { result.0 ≡ fragment_of catalogue.now rel.0 key }
{
    catalogue.law_is_sound();
    match before {
        Some(frag) if has_key(catalogue, frag, rel, key) => frag,
        _ => catalogue.fragment_of(rel, key),
    }
}

/// Whether a fragment is of the relation, and its range holds the key.
fn has_key(catalogue: &Catalogue, frag: FragNo, rel: RelNo, key: i64) -> bool
    requires from { 1 ≤ frag.0 }
    requires to { frag.0 ≤ length catalogue.now.fragments }
    ensures { result ≡ holds_key catalogue.now rel.0 key frag.0 }
{
    let fragment = catalogue.fragment(frag);
    fragment.rel.0 == rel.0 && fragment.least <= key && key <= fragment.greatest
}

/// Writes the rows of the fragments that have copies, dated 0.
fn write_rows(
    copies: &mut Copies,
    catalogue: &Catalogue,
    last: &BTreeMap<(u32, i64), &Row>,
) -> Result<(), NoMemory>
    requires live { IsTrue copies.old.live }
    requires entries { All (IsEntry catalogue.now) (map lent last.now.entries) }
    ensures live { OnOk result (IsTrue copies.new.live) }
    ensures value { OnOk result (copies.new.value ≡ fold with_change copies.old.value
        (map (first_row catalogue.now) (map lent last.now.entries))) }
{
    for (item, row) in last.iter() {
        let frag = catalogue.fragment_of(RelNo(item.0), item.1);
        write_row(copies, frag, item.1, row)?;
    }
    Ok(())
}

/// Writes a row, dated 0, where its fragment has a copy.
fn write_row(copies: &mut Copies, frag: FragNo, key: i64, row: &Row) -> Result<(), NoMemory>
    requires { IsTrue copies.old.live }
    ensures live { OnOk result (IsTrue copies.new.live) }
    ensures value { OnOk result (copies.new.value ≡ with_change copies.old.value
        (0, record { frag = frag; key = key; row = Some row.now })) }
{
    match copies.at(frag) {
        None => Ok(()),
        Some(_) => copies.write(
            Ts(0),
            Change {
                frag,
                key,
                row: Some(row.copy()?),
            },
        ),
    }
}
