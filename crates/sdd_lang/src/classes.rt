//! What a transaction reads and writes, and the class that covers it.
ghost use Rattle.std.specs.Prelude.{◌≡◌, ◌≤◌, ◌||◌, not, is_some, map, length, IfOk};
ghost use Rattle.std.specs.List.{list_all};
ghost use Rattle.sdd_catalog.specs.Catalogue.{reads_at, writes};
ghost use Rattle.sdd_lang.specs.Fits.{FitsTxn};
ghost use Rattle.sdd_lang.specs.FragSets.{has, members};
ghost use Rattle.sdd_lang.specs.Classes.{read_set, write_set, covers, class_for};

use crate::frag_set::FragSet;
use crate::touched::Touched;
use crate::transaction::Txn;
use sdd_base::{ClassNo, FragNo, NoMemory};
use sdd_catalog::Catalogue;
use std::alloc::Global;

/// The fragments that a transaction reads: those of its uses, ascending without repeats.
///
/// Costs, for each use, time in the conditions of its statement and the fragments of the catalogue;
/// of memory only the result.
pub fn read_set(alloc: Global, catalogue: &Catalogue, txn: &Txn) -> Result<Vec<FragNo>, NoMemory>
    requires { FitsTxn catalogue.now txn.now }
    ensures { IfOk result (λ frags. map (λ f. f.0) frags.items ≡ read_set catalogue.now txn.now) }
{
    let mut touched = Touched::none();
    touched.add_all(catalogue, txn);
    list_fragments(alloc, catalogue, &touched.reads)
}

/// The fragments that a transaction may change, ascending without repeats: where it puts a row the
/// one fragment that holds the row's key, and the fragments of the uses of its updates and deletes.
///
/// Costs, for each use, time in the conditions of its statement and the fragments of the catalogue;
/// of memory only the result.
pub fn write_set(alloc: Global, catalogue: &Catalogue, txn: &Txn) -> Result<Vec<FragNo>, NoMemory>
    requires { FitsTxn catalogue.now txn.now }
    ensures { IfOk result (λ frags. map (λ f. f.0) frags.items ≡ write_set catalogue.now txn.now) }
{
    let mut touched = Touched::none();
    touched.add_all(catalogue, txn);
    list_fragments(alloc, catalogue, &touched.writes)
}

/// The class in which a transaction runs: the lowest class of its module that reads all that it
/// reads and writes all that it writes, or class 0 where there is none.
///
/// Costs what the two sets cost, and, for each class of its module, time in the fragments of the
/// catalogue, and for each fragment of the sets time in the class's lists. Takes no memory.
pub fn class_for(catalogue: &Catalogue, txn: &Txn) -> ClassNo
    requires { FitsTxn catalogue.now txn.now }
    ensures { result.0 ≡ class_for catalogue.now txn.now }
{
    let mut touched = Touched::none();
    touched.add_all(catalogue, txn);
    first_covering(catalogue, txn, &touched)
}

/// The fragments of the set, ascending.
fn list_fragments(
    alloc: Global,
    catalogue: &Catalogue,
    set: &FragSet,
) -> Result<Vec<FragNo>, NoMemory>
    ensures { IfOk result (λ frags. map (λ f. f.0) frags.items ≡ members catalogue.now set.now) }
{
    catalogue.law_is_sound();
    let mut frags = Vec::new(alloc);
    for number in 1..catalogue.fragments() + 1 {
        if set.has(catalogue, FragNo(number)) {
            frags.push(FragNo(number))?;
        }
    }
    Ok(frags)
}

/// The lowest class that covers the transaction, which touches these, or class 0.
fn first_covering(catalogue: &Catalogue, txn: &Txn, touched: &Touched) -> ClassNo
    requires reads { members catalogue.now touched.now.reads ≡ read_set catalogue.now txn.now }
    requires writes { members catalogue.now touched.now.writes ≡ write_set catalogue.now txn.now }
    ensures { result.0 ≡ class_for catalogue.now txn.now }
{
    catalogue.law_is_sound();
    for class in 1..catalogue.classes() + 1 {
        if covers(catalogue, txn, touched, ClassNo(class)) {
            return ClassNo(class);
        }
    }
    ClassNo(0)
}

/// Whether the class covers the transaction, which touches these.
fn covers(catalogue: &Catalogue, txn: &Txn, touched: &Touched, class: ClassNo) -> bool
    requires reads { members catalogue.now touched.now.reads ≡ read_set catalogue.now txn.now }
    requires writes { members catalogue.now touched.now.writes ≡ write_set catalogue.now txn.now }
    requires from { 1 ≤ class.0 }
    requires to { class.0 ≤ length catalogue.now.classes }
    ensures { result ≡ covers catalogue.now txn.now class.0 }
{
    catalogue.class(class).tm == txn.tm
        && reads_all(catalogue, class, &touched.reads)
        && writes_all(catalogue, class, &touched.writes)
}

/// Whether the class reads all fragments of the set.
fn reads_all(catalogue: &Catalogue, class: ClassNo, set: &FragSet) -> bool
    requires { class.0 ≤ length catalogue.now.classes }
    ensures { result ≡ list_all (λ f. is_some (reads_at catalogue.now class.0 f)) (members catalogue.now set.now) }
{
    catalogue.law_is_sound();
    for number in 1..catalogue.fragments() + 1 {
        if !reads_where_set(catalogue, class, set, FragNo(number)) {
            return false;
        }
    }
    true
}

/// Whether the class reads the fragment, where this is of the set.
fn reads_where_set(catalogue: &Catalogue, class: ClassNo, set: &FragSet, frag: FragNo) -> bool
    requires class { class.0 ≤ length catalogue.now.classes }
    requires from { 1 ≤ frag.0 }
    requires to { frag.0 ≤ length catalogue.now.fragments }
    ensures { result ≡ (not (has set.now frag.0) || is_some (reads_at catalogue.now class.0 frag.0)) }
{
    !set.has(catalogue, frag) || catalogue.reads_at(class, frag).is_some()
}

/// Whether the class writes all fragments of the set.
fn writes_all(catalogue: &Catalogue, class: ClassNo, set: &FragSet) -> bool
    requires { class.0 ≤ length catalogue.now.classes }
    ensures { result ≡ list_all (writes catalogue.now class.0) (members catalogue.now set.now) }
{
    catalogue.law_is_sound();
    for number in 1..catalogue.fragments() + 1 {
        if !writes_where_set(catalogue, class, set, FragNo(number)) {
            return false;
        }
    }
    true
}

/// Whether the class writes the fragment, where this is of the set.
fn writes_where_set(catalogue: &Catalogue, class: ClassNo, set: &FragSet, frag: FragNo) -> bool
    requires class { class.0 ≤ length catalogue.now.classes }
    requires to { frag.0 ≤ length catalogue.now.fragments }
    ensures { result ≡ (not (has set.now frag.0) || writes catalogue.now class.0 frag.0) }
{
    !set.has(catalogue, frag) || catalogue.writes(class, frag)
}
