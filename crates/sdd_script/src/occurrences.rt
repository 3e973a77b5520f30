//! Events, by the words after the first word of their lines.
ghost use Rattle.std.specs.Prelude.{◌≡◌, ◌≤◌};
ghost use Rattle.sdd_lang.specs.All.{GivesReading, are_linked};
ghost use Rattle.sdd_script.specs.Rules.{rule_in};
ghost use Rattle.sdd_script.specs.Occurrences.{numbered, site_in, site_of, module_of, tm_of, link_of, count_of, flight_place, deliver_of, lose_of, repeat_of, txn_named, submit_of, resend_of, tick_of, settle_of, redeclare_of, data_module_of, dm_of, any_module_of, turning_of, down_of, up_of, event_of};
ghost use Rattle.sdd_words.specs.Words.{Plain};

use crate::fault::{LineError, WorkRule, must, refuse, require};
use crate::keyword::EventKey;
use crate::names::Names;
use sdd_lang::{Catalogue, DmNo, Event, MAX_PLACE, MAX_TICKS, Site, TmNo, TxnNo};
use sdd_words::{Token, Tokens, is_free, number_in, read_name};
use std::alloc::Global;

/// The number of a module, from 1 to the most.
fn module_number(most: u8, digits: &[u8]) -> Option<u8>
    ensures { result ≡ numbered most digits.now }
{
    match u8::try_from(number_in(digits)?) {
        Ok(number) if 0 < number && number <= most => Some(number),
        _ => None,
    }
}

fn tm_number(catalogue: &Catalogue, digits: &[u8]) -> Option<u8>
    ensures { result ≡ numbered catalogue.now.tms digits.now }
{
    catalogue.law_is_sound();
    module_number(catalogue.tms() as u8, digits)
}

fn dm_number(catalogue: &Catalogue, digits: &[u8]) -> Option<u8>
    ensures { result ≡ numbered catalogue.now.dms digits.now }
{
    catalogue.law_is_sound();
    module_number(catalogue.dms() as u8, digits)
}

fn site_in(catalogue: &Catalogue, bytes: &[u8]) -> Option<Site>
    ensures { result ≡ site_in catalogue.now bytes.now }
{
    match bytes {
        [] => None,
        [first, digits @ ..] => {
            if *first == b'U' && digits.is_empty() {
                Some(Site::U)
            } else if *first == b'T' {
                tm_number(catalogue, digits).map(|n| Site::T(TmNo(n)))
            } else if *first == b'D' {
                dm_number(catalogue, digits).map(|n| Site::D(DmNo(n)))
            } else {
                None
            }
        }
    }
}

fn read_site(catalogue: &Catalogue, word: &Token<'_>) -> Result<Site, LineError>
    ensures { GivesReading rule_in (λ s. s) result (site_of catalogue.now word.now) }
{
    match word.plain() {
        Some(bytes) => require(WorkRule::BadEvent, site_in(catalogue, bytes)),
        None => refuse(WorkRule::BadEvent),
    }
}

fn module_of(site: Site) -> Result<TmNo, LineError>
    ensures { GivesReading rule_in (λ t. t) result (module_of site) }
{
    match site {
        Site::T(tm) => Ok(tm),
        _ => refuse(WorkRule::BadEvent),
    }
}

/// The transaction module that a word names.
pub fn read_tm(catalogue: &Catalogue, word: &Token<'_>) -> Result<TmNo, LineError>
    ensures { GivesReading rule_in (λ t. t) result (tm_of catalogue.now word.now) }
{
    module_of(read_site(catalogue, word)?)
}

fn data_module_of(site: Site) -> Result<DmNo, LineError>
    ensures { GivesReading rule_in (λ d. d) result (data_module_of site) }
{
    match site {
        Site::D(dm) => Ok(dm),
        _ => refuse(WorkRule::BadEvent),
    }
}

/// The data module that a word names.
pub fn read_dm(catalogue: &Catalogue, word: &Token<'_>) -> Result<DmNo, LineError>
    ensures { GivesReading rule_in (λ d. d) result (dm_of catalogue.now word.now) }
{
    data_module_of(read_site(catalogue, word)?)
}

fn any_module_of(site: Site) -> Result<Site, LineError>
    ensures { GivesReading rule_in (λ s. s) result (any_module_of site) }
{
    match site {
        Site::U => refuse(WorkRule::BadEvent),
        _ => Ok(site),
    }
}

/// The module that a word names: a transaction module or a data module.
fn read_turning(catalogue: &Catalogue, word: &Token<'_>) -> Result<Site, LineError>
    ensures { GivesReading rule_in (λ s. s) result (turning_of catalogue.now word.now) }
{
    any_module_of(read_site(catalogue, word)?)
}

fn are_linked(from: Site, to: Site) -> bool
    ensures { result ≡ are_linked from to }
{
    match (from, to) {
        (Site::U, Site::U) | (Site::T(_), Site::T(_)) | (Site::D(_), Site::D(_)) => false,
        _ => true,
    }
}

fn read_link(
    catalogue: &Catalogue,
    from: &Token<'_>,
    to: &Token<'_>,
) -> Result<(Site, Site), LineError>
    ensures { GivesReading rule_in (λ l. l) result (link_of catalogue.now from.now to.now) }
{
    let from = read_site(catalogue, from)?;
    let to = read_site(catalogue, to)?;
    must(WorkRule::BadEvent, are_linked(from, to))?;
    Ok((from, to))
}

fn count_in(most: u32, digits: &[u8]) -> Option<u32>
    ensures { result ≡ numbered most digits.now }
{
    match u32::try_from(number_in(digits)?) {
        Ok(number) if 0 < number && number <= most => Some(number),
        _ => None,
    }
}

/// A number from 1 to the most.
fn read_count(most: u32, word: &Token<'_>) -> Result<u32, LineError>
    ensures { GivesReading rule_in (λ n. n) result (count_of most word.now) }
{
    match word.plain() {
        Some(bytes) => require(WorkRule::BadNumber, count_in(most, bytes)),
        None => refuse(WorkRule::BadNumber),
    }
}

fn read_flight_place(
    catalogue: &Catalogue,
    words: &mut Tokens<'_>,
) -> Result<(Site, Site, u32), LineError>
    ensures { GivesReading rule_in (λ p. p) result (flight_place catalogue.now words.old) }
{
    match words.only_three() {
        Some((from, to, place)) => {
            must(
                WorkRule::BadLine,
                is_free(&from) && is_free(&to) && is_free(&place),
            )?;
            let (from, to) = read_link(catalogue, &from, &to)?;
            let place = read_count(MAX_PLACE, &place)?;
            Ok((from, to, place))
        }
        None => refuse(WorkRule::BadLine),
    }
}

fn read_deliver(catalogue: &Catalogue, words: &mut Tokens<'_>) -> Result<Event, LineError>
    ensures { GivesReading rule_in (λ e. e) result (deliver_of catalogue.now words.old) }
{
    let (from, to, place) = read_flight_place(catalogue, words)?;
    Ok(Event::Deliver { from, to, place })
}

fn read_lose(catalogue: &Catalogue, words: &mut Tokens<'_>) -> Result<Event, LineError>
    ensures { GivesReading rule_in (λ e. e) result (lose_of catalogue.now words.old) }
{
    let (from, to, place) = read_flight_place(catalogue, words)?;
    Ok(Event::Lose { from, to, place })
}

fn read_repeat(catalogue: &Catalogue, words: &mut Tokens<'_>) -> Result<Event, LineError>
    ensures { GivesReading rule_in (λ e. e) result (repeat_of catalogue.now words.old) }
{
    let (from, to, place) = read_flight_place(catalogue, words)?;
    Ok(Event::Repeat { from, to, place })
}

fn txn_in(alloc: Global, names: &Names, bytes: &[u8]) -> Result<TxnNo, LineError>
    ensures { GivesReading rule_in (λ t. t) result (txn_named names.now (Plain bytes.now)) }
{
    let name = require(WorkRule::UnknownName, read_name(alloc, bytes)?)?;
    let number = require(WorkRule::UnknownName, names.number_of(name.as_str()))?;
    Ok(TxnNo(number))
}

fn read_txn(alloc: Global, names: &Names, word: &Token<'_>) -> Result<TxnNo, LineError>
    ensures { GivesReading rule_in (λ t. t) result (txn_named names.now word.now) }
{
    match word.plain() {
        Some(bytes) => txn_in(alloc, names, bytes),
        None => refuse(WorkRule::UnknownName),
    }
}

fn read_submit(alloc: Global, names: &Names, words: &mut Tokens<'_>) -> Result<Event, LineError>
    ensures { GivesReading rule_in (λ e. e) result (submit_of names.now words.old) }
{
    match words.only_one() {
        Some(name) => {
            must(WorkRule::BadLine, is_free(&name))?;
            let txn = read_txn(alloc, names, &name)?;
            Ok(Event::Submit(txn))
        }
        None => refuse(WorkRule::BadLine),
    }
}

fn read_resend(catalogue: &Catalogue, words: &mut Tokens<'_>) -> Result<Event, LineError>
    ensures { GivesReading rule_in (λ e. e) result (resend_of catalogue.now words.old) }
{
    match words.only_two() {
        Some((from, to)) => {
            must(WorkRule::BadLine, is_free(&from) && is_free(&to))?;
            let (from, to) = read_link(catalogue, &from, &to)?;
            Ok(Event::Resend { from, to })
        }
        None => refuse(WorkRule::BadLine),
    }
}

fn read_tick(catalogue: &Catalogue, words: &mut Tokens<'_>) -> Result<Event, LineError>
    ensures { GivesReading rule_in (λ e. e) result (tick_of catalogue.now words.old) }
{
    match words.only_two() {
        Some((tm, n)) => {
            must(WorkRule::BadLine, is_free(&tm) && is_free(&n))?;
            let tm = read_tm(catalogue, &tm)?;
            let n = read_count(MAX_TICKS, &n)?;
            Ok(Event::Tick { tm, n })
        }
        None => refuse(WorkRule::BadLine),
    }
}

fn read_settle(words: &mut Tokens<'_>) -> Result<Event, LineError>
    ensures { GivesReading rule_in (λ e. e) result (settle_of words.old) }
{
    match words.next() {
        None => Ok(Event::Settle),
        Some(_) => refuse(WorkRule::BadLine),
    }
}

fn read_redeclare(words: &mut Tokens<'_>) -> Result<Event, LineError>
    ensures { GivesReading rule_in (λ e. e) result (redeclare_of words.old) }
{
    match words.next() {
        None => Ok(Event::Redeclare),
        Some(_) => refuse(WorkRule::BadLine),
    }
}

fn read_down(catalogue: &Catalogue, words: &mut Tokens<'_>) -> Result<Event, LineError>
    ensures { GivesReading rule_in (λ e. e) result (down_of catalogue.now words.old) }
{
    match words.only_one() {
        Some(module) => {
            must(WorkRule::BadLine, is_free(&module))?;
            let at = read_turning(catalogue, &module)?;
            Ok(Event::Down(at))
        }
        None => refuse(WorkRule::BadLine),
    }
}

fn read_up(catalogue: &Catalogue, words: &mut Tokens<'_>) -> Result<Event, LineError>
    ensures { GivesReading rule_in (λ e. e) result (up_of catalogue.now words.old) }
{
    match words.only_one() {
        Some(module) => {
            must(WorkRule::BadLine, is_free(&module))?;
            let at = read_turning(catalogue, &module)?;
            Ok(Event::Up(at))
        }
        None => refuse(WorkRule::BadLine),
    }
}

/// An event, by its first word and the words after it, among transactions with these names.
pub fn read_event(
    alloc: Global,
    catalogue: &Catalogue,
    names: &Names,
    key: EventKey,
    words: &mut Tokens<'_>,
) -> Result<Event, LineError>
    ensures { GivesReading rule_in (λ e. e) result (event_of key catalogue.now names.now words.old) }
{
    match key {
        EventKey::Submit => read_submit(alloc, names, words),
        EventKey::Deliver => read_deliver(catalogue, words),
        EventKey::Lose => read_lose(catalogue, words),
        EventKey::Repeat => read_repeat(catalogue, words),
        EventKey::Resend => read_resend(catalogue, words),
        EventKey::Tick => read_tick(catalogue, words),
        EventKey::Settle => read_settle(words),
        EventKey::Redeclare => read_redeclare(words),
        EventKey::Down => read_down(catalogue, words),
        EventKey::Up => read_up(catalogue, words),
    }
}
