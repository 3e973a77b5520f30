//! One line of a workload, by its words.
ghost use Rattle.std.specs.Prelude.{◌≡◌, OnOk};
ghost use Rattle.sdd_lang.specs.All.{GivesReading};
ghost use Rattle.sdd_script.specs.Few.{short};
ghost use Rattle.sdd_script.specs.Rules.{rule_in};
ghost use Rattle.sdd_script.specs.LineRules.{row_rules, opened, txn_rules, with_statement, statement_rules, closed, done_rules, is_submitted, with_submitted, with_event, event_rules, end_rules, keyword_rules, words_rules, sound_rules, line_rules};
ghost use Rattle.sdd_script.specs.Occurrences.{event_of};
ghost use Rattle.sdd_script.specs.Statements.{statement_of};

use crate::class_lists::read_class_line;
use crate::fault::{Counts, LineError, WorkRule, must, refuse, require};
use crate::grown::Grown;
use crate::keyword::{EventKey, Keyword, StatementKey, keyword_of};
use crate::limits::{check_limits, one_more_row, written_with};
use crate::naming::name_in_word;
use crate::occurrences::{read_event, read_tm};
use crate::open_list::classes_in;
use crate::place::{Header, Place};
use crate::redeclaring::may_follow;
use crate::state::State;
use crate::statements::read_statement;
use crate::submitted::Submitted;
use crate::values::read_row;
use sdd_lang::{Catalogue, Event, MAX_EVENTS, MAX_TXNS, Name, NoMemory, Stmt, TmNo, Txn};
use sdd_words::{Tokens, are_free, are_sound, is_free, text_of, words_of};
use std::alloc::Global;
use std::mem;

fn row_line(
    alloc: Global,
    catalogue: &Catalogue,
    state: &mut State,
    words: &mut Tokens<'_>,
) -> Result<(), LineError>
    ensures { GivesReading rule_in (λ _. state.new) result (row_rules catalogue.now state.old words.old) }
{
    match words.next() {
        None => refuse(WorkRule::BadLine),
        Some(name) => {
            must(
                WorkRule::BadLine,
                state.place.takes_rows() && (is_free(&name) && are_free(words)),
            )?;
            let row = read_row(alloc, catalogue, &name, words)?;
            state.written = require(WorkRule::TooMany(Counts::Row), one_more_row(state.written))?;
            state.rows.push(row)?;
            Ok(())
        }
    }
}

fn open_txn(alloc: Global, state: &mut State, name: Name, tm: TmNo) -> Result<(), LineError>
    ensures { GivesReading rule_in (λ _. state.new) result (opened state.old name tm) }
{
    must(WorkRule::DuplicateTxn, !state.names.has(name.as_str()))?;
    must(WorkRule::TooMany(Counts::Txn), state.names.len() < MAX_TXNS)?;
    state.names.add(alloc, name.as_str())?;
    state.place = Place::Inside(Header { name, tm });
    Ok(())
}

fn txn_line(
    alloc: Global,
    catalogue: &Catalogue,
    state: &mut State,
    words: &mut Tokens<'_>,
) -> Result<(), LineError>
    ensures { GivesReading rule_in (λ _. state.new) result (txn_rules catalogue.now state.old words.old) }
{
    match words.only_two() {
        Some((word, tm)) => {
            must(
                WorkRule::BadLine,
                state.place.takes_txns() && (is_free(&word) && is_free(&tm)),
            )?;
            let name = name_in_word(alloc, &word)?;
            let tm = read_tm(catalogue, &tm)?;
            open_txn(alloc, state, name, tm)
        }
        None => refuse(WorkRule::BadLine),
    }
}

fn add_statement(state: &mut State, statement: Stmt) -> Result<(), LineError>
    ensures { GivesReading rule_in (λ _. state.new) result (with_statement state.old statement) }
{
    let written = require(
        WorkRule::TooMany(Counts::Row),
        written_with(state.written, &statement),
    )?;
    check_limits(state.statements.len(), &statement)?;
    state.written = written;
    state.statements.push(statement)?;
    Ok(())
}

/// Adds a statement as it was read, of what is too many in it no more than the first ones.
fn short_statement_line(
    alloc: Global,
    catalogue: &Catalogue,
    state: &mut State,
    key: StatementKey,
    words: &mut Tokens<'_>,
) -> Result<(), LineError>
    ensures { GivesReading rule_in (λ _. state.new) result
        (statement_rules state.old (short (statement_of key catalogue.now words.old))) }
{
    must(WorkRule::BadLine, state.place.takes_statements())?;
    add_statement(state, read_statement(alloc, catalogue, key, words)?)
}

fn statement_line(
    alloc: Global,
    catalogue: &Catalogue,
    state: &mut State,
    key: StatementKey,
    words: &mut Tokens<'_>,
) -> Result<(), LineError>
    ensures { GivesReading rule_in (λ _. state.new) result
        (statement_rules state.old (statement_of key catalogue.now words.old)) }
{
    short_statement_line(alloc, catalogue, state, key, words)
}

/// Ends the transaction or the class list that is open.
fn close(alloc: Global, state: &mut State) -> Result<(), LineError>
    ensures { GivesReading rule_in (λ _. state.new) result (closed state.old.place state.old) }
{
    match mem::replace(&mut state.place, Place::Between) {
        Place::Inside(Header { name, tm }) => {
            let statements = mem::replace(&mut state.statements, Grown::new(alloc));
            state.txns.push(Txn {
                name,
                tm,
                statements: statements.into_listed(),
            })?;
            Ok(())
        }
        Place::Listing(list) => {
            let classes = classes_in(list)?;
            state.place = Place::Declared;
            state.lists.push(classes.into_listed())?;
            Ok(())
        }
        _ => refuse(WorkRule::BadLine),
    }
}

fn done_line(alloc: Global, state: &mut State, words: &mut Tokens<'_>) -> Result<(), LineError>
    ensures { GivesReading rule_in (λ _. state.new) result (done_rules state.old words.old) }
{
    match words.next() {
        None => close(alloc, state),
        Some(_) => refuse(WorkRule::BadLine),
    }
}

fn is_submitted(submitted: &Submitted, event: Event) -> bool
    ensures { result ≡ is_submitted submitted.now event }
{
    match event {
        Event::Submit(txn) => submitted.has(txn),
        _ => false,
    }
}

fn note_submitted(submitted: &mut Submitted, event: Event) -> Result<(), NoMemory>
    ensures { OnOk result (submitted.new ≡ with_submitted submitted.old event) }
{
    match event {
        Event::Submit(txn) => submitted.add(txn),
        _ => Ok(()),
    }
}

fn add_event(catalogue: &Catalogue, state: &mut State, event: Event) -> Result<(), LineError>
    ensures { GivesReading rule_in (λ _. state.new) result (with_event catalogue.now state.old event) }
{
    must(
        WorkRule::SubmittedTwice,
        !is_submitted(&state.submitted, event),
    )?;
    must(
        WorkRule::BadEvent,
        may_follow(catalogue, state.lists.len(), state.events.as_slice(), event),
    )?;
    must(
        WorkRule::TooMany(Counts::Event),
        state.events.len() < MAX_EVENTS,
    )?;
    state.place = Place::Events;
    note_submitted(&mut state.submitted, event)?;
    state.events.push(event)?;
    Ok(())
}

fn event_line(
    alloc: Global,
    catalogue: &Catalogue,
    state: &mut State,
    key: EventKey,
    words: &mut Tokens<'_>,
) -> Result<(), LineError>
    ensures { GivesReading rule_in (λ _. state.new) result
        (event_rules catalogue.now state.old (event_of key catalogue.now state.old.names words.old)) }
{
    must(WorkRule::BadLine, state.place.takes_events())?;
    let event = read_event(alloc, catalogue, &state.names, key, words)?;
    add_event(catalogue, state, event)
}

fn end_line(state: &mut State, words: &mut Tokens<'_>) -> Result<(), LineError>
    ensures { GivesReading rule_in (λ _. state.new) result (end_rules state.old words.old) }
{
    match words.next() {
        None => {
            must(WorkRule::BadLine, state.place.takes_events())?;
            state.place = Place::Ended;
            Ok(())
        }
        Some(_) => refuse(WorkRule::BadLine),
    }
}

fn read_keyword_line(
    alloc: Global,
    catalogue: &Catalogue,
    state: &mut State,
    keyword: Keyword,
    words: &mut Tokens<'_>,
) -> Result<(), LineError>
    ensures { GivesReading rule_in (λ _. state.new) result (keyword_rules keyword catalogue.now state.old words.old) }
{
    match keyword {
        Keyword::Row => row_line(alloc, catalogue, state, words),
        Keyword::Txn => txn_line(alloc, catalogue, state, words),
        Keyword::Statement(key) => statement_line(alloc, catalogue, state, key, words),
        Keyword::Done => done_line(alloc, state, words),
        Keyword::Class(key) => read_class_line(alloc, catalogue, state, key, words),
        Keyword::Event(key) => event_line(alloc, catalogue, state, key, words),
        Keyword::End => end_line(state, words),
    }
}

fn read_words(
    alloc: Global,
    catalogue: &Catalogue,
    state: &mut State,
    words: &mut Tokens<'_>,
) -> Result<(), LineError>
    ensures { GivesReading rule_in (λ _. state.new) result (words_rules catalogue.now state.old words.old) }
{
    match words.next() {
        None => refuse(WorkRule::BadLine),
        Some(first) => {
            let keyword = require(WorkRule::BadLine, keyword_of(&first))?;
            read_keyword_line(alloc, catalogue, state, keyword, words)
        }
    }
}

fn read_sound_words(
    alloc: Global,
    catalogue: &Catalogue,
    state: &mut State,
    words: &mut Tokens<'_>,
) -> Result<(), LineError>
    ensures { GivesReading rule_in (λ _. state.new) result (sound_rules catalogue.now state.old words.old) }
{
    must(WorkRule::BadLine, are_sound(alloc, words)?)?;
    read_words(alloc, catalogue, state, words)
}

/// What the lines have said with one line more. Where it has a fault, the state is not used again.
#[tactic(auto, unfolding(crate::specs::LineRules::line_rules))]
pub fn read_line(
    alloc: Global,
    catalogue: &Catalogue,
    state: &mut State,
    line: &[u8],
) -> Result<(), LineError>
    ensures { GivesReading rule_in (λ _. state.new) result (line_rules catalogue.now state.old line.now) }
{
    must(WorkRule::NotUtf8, text_of(line).is_some())?;
    match words_of(line) {
        Some(mut words) => read_sound_words(alloc, catalogue, state, &mut words),
        None => refuse(WorkRule::BadLine),
    }
}
