//! The lines of class lists, by their words.
ghost use Rattle.std.specs.Prelude.{◌≡◌, ◌&&◌, List, map, not};
ghost use Rattle.std.specs.List.{list_any};
ghost use Rattle.std.specs.Str.{bytes_eq};
ghost use Rattle.sdd_lang.specs.All.{ClassPart, GivesReading, ReadPart, has_copy, has_name};
ghost use Rattle.sdd_words.specs.Words.{Plain};
ghost use Rattle.sdd_script.specs.ClassLists.{all_classes, fragment_of, is_taken, with_class_of, with_read_of, with_write_of, list_rules, class_rules, reads_rules, writes_rules, class_line_rules};
ghost use Rattle.sdd_script.specs.OpenLists.{classes_in, last_class};
ghost use Rattle.sdd_script.specs.Places.{open_list, reads_at};
ghost use Rattle.sdd_script.specs.Rules.{rule_in};

use crate::fault::{Counts, LineError, WorkRule, must, refuse, require};
use crate::keyword::ClassKey;
use crate::limits::{MAX_LISTS, one_more_class};
use crate::naming::{fragment_named, has_class, has_copy, name_in_word};
use crate::occurrences::{read_dm, read_tm};
use crate::open_list::{OpenClass, OpenList, no_classes, with_class, with_read, with_write};
use crate::place::Place;
use crate::state::State;
use sdd_lang::{Catalogue, ClassPart, ClassParts, DmNo, MAX_READS, Name, ReadPart, TmNo};
use sdd_words::{Token, Tokens, is_free, read_name};
use std::alloc::Global;
use std::mem;

fn list_line(alloc: Global, state: &mut State, words: &mut Tokens<'_>) -> Result<(), LineError>
    ensures { GivesReading rule_in (λ _. state.new) result (list_rules state.old words.old) }
{
    match words.next() {
        None => {
            must(WorkRule::BadLine, state.place.takes_lists())?;
            must(
                WorkRule::TooMany(Counts::List),
                state.lists.len() < MAX_LISTS,
            )?;
            state.place = Place::Listing(no_classes(alloc));
            Ok(())
        }
        Some(_) => refuse(WorkRule::BadLine),
    }
}

fn is_among(classes: &[ClassPart], name: &[u8]) -> bool
    ensures { result ≡ list_any (λ (c : ClassPart). bytes_eq name.now c.name) classes.now }
{
    classes
        .iter()
        .any(|class| name == class.name.as_str().as_bytes())
}

fn is_among_lists(lists: &[ClassParts], name: &[u8]) -> bool
    ensures { result ≡ list_any (λ (l : List ClassPart). list_any (λ (c : ClassPart). bytes_eq name.now c.name) l) lists.now }
{
    lists.iter().any(|list| is_among(list.as_slice(), name))
}

fn is_last(last: &Option<OpenClass>, name: &[u8]) -> bool
    ensures { result ≡ list_any (λ (c : ClassPart). bytes_eq name.now c.name) (last_class last.now) }
{
    match last {
        None => false,
        Some(class) => name == class.name.as_str().as_bytes(),
    }
}

#[tactic(auto, using(crate::proofs::ClassNames::classes_or_last))]
fn is_in_list(list: &OpenList, name: &[u8]) -> bool
    ensures { result ≡ list_any (λ (c : ClassPart). bytes_eq name.now c.name) (classes_in list.now) }
{
    is_among(list.classes.as_slice(), name) || is_last(&list.last, name)
}

fn is_in_open_list(place: &Place, name: &[u8]) -> bool
    ensures { result ≡ list_any (λ (c : ClassPart). bytes_eq name.now c.name) (classes_in (open_list place.now)) }
{
    match place {
        Place::Listing(list) => is_in_list(list, name),
        _ => false,
    }
}

fn is_declared(state: &State, name: &[u8]) -> bool
    ensures { result ≡ list_any (λ (c : ClassPart). bytes_eq name.now c.name) (all_classes state.now) }
{
    is_among_lists(state.lists.as_slice(), name) || is_in_open_list(&state.place, name)
}

/// Whether a class of the catalogue, or one of the lists so far, has the name.
#[tactic(auto, using(crate::proofs::ClassNames::catalogue_or_lists))]
fn is_taken(catalogue: &Catalogue, state: &State, name: &[u8]) -> bool
    ensures { result ≡ is_taken catalogue.now state.now name.now }
{
    has_class(catalogue, name) || is_declared(state, name)
}

fn add_class(
    alloc: Global,
    catalogue: &Catalogue,
    state: &mut State,
    name: Name,
    tm: TmNo,
) -> Result<(), LineError>
    ensures { GivesReading rule_in (λ _. state.new) result (with_class_of catalogue.now state.old name tm) }
{
    must(
        WorkRule::BadClass,
        !is_taken(catalogue, state, name.as_str().as_bytes()),
    )?;
    state.classes = require(
        WorkRule::TooMany(Counts::Class),
        one_more_class(state.classes),
    )?;
    let list = mem::replace(&mut state.place, Place::Declared).into_list(alloc);
    state.place = Place::Listing(with_class(alloc, list, name, tm)?);
    Ok(())
}

fn class_line(
    alloc: Global,
    catalogue: &Catalogue,
    state: &mut State,
    words: &mut Tokens<'_>,
) -> Result<(), LineError>
    ensures { GivesReading rule_in (λ _. state.new) result (class_rules catalogue.now state.old words.old) }
{
    match words.only_two() {
        Some((word, tm)) => {
            must(
                WorkRule::BadLine,
                state.place.takes_classes() && (is_free(&word) && is_free(&tm)),
            )?;
            let name = name_in_word(alloc, &word)?;
            let tm = read_tm(catalogue, &tm)?;
            add_class(alloc, catalogue, state, name, tm)
        }
        None => refuse(WorkRule::BadLine),
    }
}

fn fragment_in(alloc: Global, catalogue: &Catalogue, bytes: &[u8]) -> Result<(Name, u32), LineError>
    ensures { GivesReading rule_in (λ f. f) result (fragment_of catalogue.now (Plain bytes.now)) }
{
    let name = require(WorkRule::UnknownName, read_name(alloc, bytes)?)?;
    let number = require(
        WorkRule::UnknownName,
        fragment_named(catalogue, name.as_str().as_bytes()),
    )?;
    Ok((name, number))
}

/// A fragment's name and its number.
fn read_fragment(
    alloc: Global,
    catalogue: &Catalogue,
    word: &Token<'_>,
) -> Result<(Name, u32), LineError>
    ensures { GivesReading rule_in (λ f. f) result (fragment_of catalogue.now word.now) }
{
    match word.plain() {
        Some(bytes) => fragment_in(alloc, catalogue, bytes),
        None => refuse(WorkRule::UnknownName),
    }
}

fn names_fragment(reads: &[ReadPart], name: &[u8]) -> bool
    ensures { result ≡ list_any (λ (r : ReadPart). bytes_eq name.now r.fragment) reads.now }
{
    reads
        .iter()
        .any(|read| name == read.fragment.as_str().as_bytes())
}

fn is_read(reads: &[ReadPart], name: &[u8]) -> bool
    ensures { result ≡ has_name (map (λ (r : ReadPart). r.fragment) reads.now) name.now }
{
    names_fragment(reads, name)
}

fn is_written(writes: &[Name], name: &[u8]) -> bool
    ensures { result ≡ has_name writes.now name.now }
{
    writes
        .iter()
        .any(|written| name == written.as_str().as_bytes())
}

/// Whether the class that is open may read the fragment at the module.
fn may_read(catalogue: &Catalogue, place: &Place, fragment: &[u8], number: u32, dm: DmNo) -> bool
    ensures { result ≡ (not (has_name (map (λ (r : ReadPart). r.fragment) (reads_at place.now)) fragment.now) && has_copy catalogue.now dm.0 number) }
{
    !is_read(place.reads(), fragment) && has_copy(catalogue, dm, number)
}

fn add_read(
    alloc: Global,
    catalogue: &Catalogue,
    state: &mut State,
    fragment: Name,
    number: u32,
    dm: DmNo,
) -> Result<(), LineError>
    ensures { GivesReading rule_in (λ _. state.new) result (with_read_of catalogue.now state.old (fragment, number) dm) }
{
    must(
        WorkRule::BadClass,
        may_read(
            catalogue,
            &state.place,
            fragment.as_str().as_bytes(),
            number,
            dm,
        ),
    )?;
    must(
        WorkRule::TooMany(Counts::Read),
        state.place.reads().len() < MAX_READS,
    )?;
    let read = ReadPart {
        fragment,
        at: u32::from(dm.0),
    };
    let list = mem::replace(&mut state.place, Place::Declared).into_list(alloc);
    state.place = Place::Listing(with_read(list, read)?);
    Ok(())
}

fn reads_line(
    alloc: Global,
    catalogue: &Catalogue,
    state: &mut State,
    words: &mut Tokens<'_>,
) -> Result<(), LineError>
    ensures { GivesReading rule_in (λ _. state.new) result (reads_rules catalogue.now state.old words.old) }
{
    match words.only_two() {
        Some((word, dm)) => {
            must(
                WorkRule::BadLine,
                state.place.takes_reads() && (is_free(&word) && is_free(&dm)),
            )?;
            let (fragment, number) = read_fragment(alloc, catalogue, &word)?;
            let dm = read_dm(catalogue, &dm)?;
            add_read(alloc, catalogue, state, fragment, number, dm)
        }
        None => refuse(WorkRule::BadLine),
    }
}

fn add_write(alloc: Global, state: &mut State, name: Name) -> Result<(), LineError>
    ensures { GivesReading rule_in (λ _. state.new) result (with_write_of state.old name) }
{
    must(
        WorkRule::BadClass,
        !is_written(state.place.writes(), name.as_str().as_bytes()),
    )?;
    let list = mem::replace(&mut state.place, Place::Declared).into_list(alloc);
    state.place = Place::Listing(with_write(list, name)?);
    Ok(())
}

fn writes_line(
    alloc: Global,
    catalogue: &Catalogue,
    state: &mut State,
    words: &mut Tokens<'_>,
) -> Result<(), LineError>
    ensures { GivesReading rule_in (λ _. state.new) result (writes_rules catalogue.now state.old words.old) }
{
    match words.only_one() {
        Some(word) => {
            must(
                WorkRule::BadLine,
                state.place.takes_writes() && is_free(&word),
            )?;
            let (fragment, _) = read_fragment(alloc, catalogue, &word)?;
            add_write(alloc, state, fragment)
        }
        None => refuse(WorkRule::BadLine),
    }
}

/// What the lines have said with one line more of a class list, but for the line that ends it.
pub fn read_class_line(
    alloc: Global,
    catalogue: &Catalogue,
    state: &mut State,
    key: ClassKey,
    words: &mut Tokens<'_>,
) -> Result<(), LineError>
    ensures { GivesReading rule_in (λ _. state.new) result (class_line_rules key catalogue.now state.old words.old) }
{
    match key {
        ClassKey::List => list_line(alloc, state, words),
        ClassKey::Class => class_line(alloc, catalogue, state, words),
        ClassKey::Reads => reads_line(alloc, catalogue, state, words),
        ClassKey::Writes => writes_line(alloc, catalogue, state, words),
    }
}
