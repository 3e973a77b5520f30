//! Relations, columns, fragments and classes by their names.
ghost use Rattle.std.specs.Prelude.{◌≡◌, ◌≤◌, ◌<◌, ◌^◌, length, slice_get, option_map, IfSome, MatchOption, Some, None};
ghost use Rattle.std.specs.List.{list_any};
ghost use Rattle.std.specs.Str.{bytes_eq};
ghost use Rattle.sdd_lang.specs.All.{GivesReading, has_copy, has_name, numbers_to};
ghost use Rattle.sdd_script.specs.Rules.{rule_in};
ghost use Rattle.sdd_script.specs.Naming.{name_of, relation_if, columns_of, key_of, name_of_relation, relation_named, relation_of, column_named, kind_of_place, name_of_fragment, fragment_named, name_of_class, class_names};

use crate::fault::{LineError, WorkRule, refuse, require};
use sdd_lang::{Catalogue, ClassNo, Column, DmNo, FragNo, Kind, Name, RelNo, Relation};
use sdd_words::{Token, read_name};
use std::alloc::Global;

/// The relation at the place below a number, or None past the last.
fn relation_if(catalogue: &Catalogue, rel: u32) -> Option<&Relation>
    ensures { MatchOption result
        (relation_if catalogue.now rel ≡ None)
        (λ r. relation_if catalogue.now rel ≡ Some r.now) }
{
    let place = rel.saturating_sub(1);
    if place < catalogue.relations() {
        Some(catalogue.relation(RelNo(place + 1)))
    } else {
        None
    }
}

/// The columns of a relation, none past the last relation.
pub fn columns_of(catalogue: &Catalogue, rel: u32) -> &[Column]
    ensures { result.now ≡ columns_of catalogue.now rel }
{
    match relation_if(catalogue, rel) {
        Some(relation) => relation.columns.as_slice(),
        None => &[],
    }
}

/// The number of the column that holds a relation's key, 0 past the last relation.
pub fn key_of(catalogue: &Catalogue, rel: u32) -> u32
    ensures { result ≡ key_of catalogue.now rel }
{
    match relation_if(catalogue, rel) {
        Some(relation) => relation.key,
        None => 0,
    }
}

/// The name of a relation, empty past the last.
pub fn name_of_relation(catalogue: &Catalogue, rel: u32) -> &[u8]
    ensures { result.now ≡ name_of_relation catalogue.now rel }
{
    match relation_if(catalogue, rel) {
        Some(relation) => relation.name.as_str().as_bytes(),
        None => &[],
    }
}

fn has_name(catalogue: &Catalogue, rel: u32, name: &[u8]) -> bool
    ensures { result ≡ bytes_eq (name_of_relation catalogue.now rel) name.now }
{
    name_of_relation(catalogue, rel) == name
}

fn relation_named(catalogue: &Catalogue, name: &[u8]) -> Option<u32>
    ensures relation { result ≡ relation_named catalogue.now name.now }
    ensures few { IfSome result (λ rel. rel < 2 ^ 8) }
{
    catalogue.law_is_sound();
    (1..catalogue.relations() + 1).find(|rel| has_name(catalogue, *rel, name))
}

/// The number of the relation that the word names, or None exactly where there is none. Costs time in
/// the number of relations.
pub fn relation_of(catalogue: &Catalogue, word: &Token<'_>) -> Option<u32>
    ensures relation { result ≡ relation_of catalogue.now word.now }
    ensures few { IfSome result (λ rel. rel < 2 ^ 8) }
{
    match word.plain() {
        Some(name) => relation_named(catalogue, name),
        None => None,
    }
}

/// The number of the relation that the word names, in one byte, or None exactly where there is none.
/// Costs time in the number of relations.
pub fn part_of(catalogue: &Catalogue, word: &Token<'_>) -> Option<u8>
    ensures { result ≡ relation_of catalogue.now word.now }
{
    match relation_of(catalogue, word) {
        Some(rel) => Some(rel as u8),
        None => None,
    }
}

/// The place of the first column with the name, from 0.
pub fn column_named(columns: &[Column], name: &[u8]) -> Option<usize>
    ensures { result ≡ column_named columns.now name.now }
{
    columns
        .iter()
        .position(|column| column.name.as_str().as_bytes() == name)
}

/// The kind of the column at a place, from 0, or None past the last.
pub fn kind_of_place(columns: &[Column], place: usize) -> Option<Kind>
    ensures { result ≡ kind_of_place columns.now place }
{
    columns.get(place).map(|column| column.kind)
}

/// The name of a fragment, empty past the last.
fn name_of_fragment(catalogue: &Catalogue, frag: u32) -> &[u8]
    ensures { result.now ≡ name_of_fragment catalogue.now frag }
{
    let place = frag.saturating_sub(1);
    if place < catalogue.fragments() {
        catalogue
            .fragment(FragNo(place + 1))
            .name
            .as_str()
            .as_bytes()
    } else {
        &[]
    }
}

fn is_fragment_name(catalogue: &Catalogue, frag: u32, name: &[u8]) -> bool
    ensures { result ≡ bytes_eq (name_of_fragment catalogue.now frag) name.now }
{
    name_of_fragment(catalogue, frag) == name
}

/// The number of the fragment with the name, or None exactly where there is none. Costs time in the
/// number of fragments.
pub fn fragment_named(catalogue: &Catalogue, name: &[u8]) -> Option<u32>
    ensures { result ≡ fragment_named catalogue.now name.now }
{
    catalogue.law_is_sound();
    (1..catalogue.fragments() + 1).find(|frag| is_fragment_name(catalogue, *frag, name))
}

/// Whether the module has a copy of the fragment, which none has past the last.
pub fn has_copy(catalogue: &Catalogue, dm: DmNo, frag: u32) -> bool
    ensures { result ≡ has_copy catalogue.now dm.0 frag }
{
    let place = frag.saturating_sub(1);
    place < catalogue.fragments() && catalogue.has_copy(dm, FragNo(place + 1))
}

/// The name of a class, empty past the last.
fn name_of_class(catalogue: &Catalogue, class: u32) -> &[u8]
    ensures { result.now ≡ name_of_class catalogue.now class }
{
    let place = class.saturating_sub(1);
    if place < catalogue.classes() {
        catalogue.class(ClassNo(place + 1)).name.as_str().as_bytes()
    } else {
        &[]
    }
}

fn is_class_name(catalogue: &Catalogue, class: u32, name: &[u8]) -> bool
    ensures { result ≡ bytes_eq name.now (name_of_class catalogue.now class) }
{
    name == name_of_class(catalogue, class)
}

fn has_numbered_class(catalogue: &Catalogue, name: &[u8]) -> bool
    ensures { result ≡ list_any (λ class. bytes_eq name.now (name_of_class catalogue.now class)) (numbers_to (length catalogue.now.classes)) }
{
    catalogue.law_is_sound();
    (1..catalogue.classes() + 1).any(|class| is_class_name(catalogue, class, name))
}

/// Whether a class of the catalogue has the name. Costs time in the number of classes.
pub fn has_class(catalogue: &Catalogue, name: &[u8]) -> bool
    ensures { result ≡ has_name (class_names catalogue.now) name.now }
{
    has_numbered_class(catalogue, name)
}

/// The name that a word is.
pub fn name_in_word(alloc: Global, word: &Token<'_>) -> Result<Name, LineError>
    ensures { GivesReading rule_in (λ n. n) result (name_of word.now) }
{
    match word.plain() {
        Some(bytes) => require(WorkRule::UnknownName, read_name(alloc, bytes)?),
        None => refuse(WorkRule::UnknownName),
    }
}
