//! One line of a control file.
ghost use Rattle.std.specs.Prelude.{◌≡◌, ◌==◌, ◌&&◌, nat_le, not, Some};
ghost use Rattle.sdd_script.specs.All.{number_of};
ghost use Rattle.sdd_control.specs.Faults.{GivesLine};
ghost use Rattle.sdd_control.specs.LineRules.{delivery_of, end_of, event_rules, head_of, head_rules, key_rules, line_rules, number_within, site_number, site_of, sound_rules, with_act, within, words_rules};

use crate::draft::Draft;
use crate::fault::{LineError, must, refuse, require};
use crate::key::{Key, key_of};
use crate::limits::{MAX_BACKUPS, MAX_WRITES};
use crate::stage::{Head, Stage};
use sdd_backups::Act;
use sdd_script::{
    Counts, MAX_EVENTS, Token, Tokens, WorkRule, are_sound, is_free, number_in, text_of, words_of,
};
use std::alloc::Global;

fn within(least: u32, most: u32, number: i64) -> Option<u32>
    ensures { result ≡ within least most (Some number) }
{
    match u32::try_from(number) {
        Ok(number) if least <= number && number <= most => Some(number),
        _ => None,
    }
}

fn number_in_bytes(least: u32, most: u32, bytes: &[u8]) -> Option<u32>
    ensures { result ≡ within least most (number_of bytes.now) }
{
    match number_in(bytes) {
        Some(number) => within(least, most, number),
        None => None,
    }
}

fn read_number(least: u32, most: u32, word: &Token<'_>) -> Result<u32, LineError>
    ensures { GivesLine (λ n. n) result (number_within least most word.now) }
{
    match word.plain() {
        Some(bytes) => require(WorkRule::BadNumber, number_in_bytes(least, most, bytes)),
        None => refuse(WorkRule::BadNumber),
    }
}

fn read_site_number(word: &Token<'_>) -> Result<u32, LineError>
    ensures { GivesLine (λ n. n) result (site_number word.now) }
{
    read_number(0, u32::MAX, word)
}

fn read_head(words: &mut Tokens<'_>) -> Result<Head, LineError>
    ensures { GivesLine (λ head. head) result (head_of words.old) }
{
    match words.only_two() {
        Some((backups, writes)) => {
            must(WorkRule::BadLine, is_free(&backups) && is_free(&writes))?;
            let backups = read_number(1, MAX_BACKUPS, &backups)?;
            let writes = read_number(1, MAX_WRITES, &writes)?;
            Ok(Head { backups, writes })
        }
        None => refuse(WorkRule::BadLine),
    }
}

fn read_site(backups: u32, words: &mut Tokens<'_>) -> Result<u32, LineError>
    ensures { GivesLine (λ site. site) result (site_of backups words.old) }
{
    match words.only_one() {
        Some(site) => {
            must(WorkRule::BadLine, is_free(&site))?;
            let site = read_site_number(&site)?;
            must(WorkRule::BadEvent, site <= backups)?;
            Ok(site)
        }
        None => refuse(WorkRule::BadLine),
    }
}

fn are_linked(backups: u32, from: u32, to: u32) -> bool
    ensures { result ≡ (nat_le from backups && nat_le to backups && not (from == to)) }
{
    from <= backups && to <= backups && from != to
}

fn read_delivery(backups: u32, words: &mut Tokens<'_>) -> Result<Act, LineError>
    ensures { GivesLine (λ act. act) result (delivery_of backups words.old) }
{
    match words.only_two() {
        Some((from, to)) => {
            must(WorkRule::BadLine, is_free(&from) && is_free(&to))?;
            let from = read_site_number(&from)?;
            let to = read_site_number(&to)?;
            must(WorkRule::BadEvent, are_linked(backups, from, to))?;
            Ok(Act::Deliver(from, to))
        }
        None => refuse(WorkRule::BadLine),
    }
}

fn add_act(draft: &mut Draft, act: Act) -> Result<(), LineError>
    ensures { GivesLine (λ _. draft.new) result (with_act draft.old act) }
{
    must(WorkRule::TooMany(Counts::Event), draft.len() < MAX_EVENTS)?;
    draft.push(act)?;
    Ok(())
}

fn read_end(head: Head, draft: &mut Draft, words: &mut Tokens<'_>) -> Result<(), LineError>
    ensures { GivesLine (λ _. draft.new) result (end_of head draft.old words.old) }
{
    match words.next() {
        None => {
            draft.set_stage(Stage::Ended(head));
            Ok(())
        }
        Some(_) => refuse(WorkRule::BadLine),
    }
}

fn read_event_line(
    key: Key,
    head: Head,
    draft: &mut Draft,
    words: &mut Tokens<'_>,
) -> Result<(), LineError>
    ensures { GivesLine (λ _. draft.new) result (event_rules key head draft.old words.old) }
{
    match key {
        Key::Step => {
            let site = read_site(head.backups, words)?;
            add_act(draft, Act::Step(site))
        }
        Key::Deliver => {
            let act = read_delivery(head.backups, words)?;
            add_act(draft, act)
        }
        Key::Stop => {
            let site = read_site(head.backups, words)?;
            add_act(draft, Act::Stop(site))
        }
        Key::End => read_end(head, draft, words),
        Key::Control => refuse(WorkRule::BadLine),
    }
}

fn read_first_line(key: Key, draft: &mut Draft, words: &mut Tokens<'_>) -> Result<(), LineError>
    ensures { GivesLine (λ _. draft.new) result (head_rules key draft.old words.old) }
{
    match key {
        Key::Control => {
            let head = read_head(words)?;
            draft.set_stage(Stage::Events(head));
            Ok(())
        }
        _ => refuse(WorkRule::BadLine),
    }
}

fn read_key_line(key: Key, draft: &mut Draft, words: &mut Tokens<'_>) -> Result<(), LineError>
    ensures { GivesLine (λ _. draft.new) result (key_rules draft.old.stage key draft.old words.old) }
{
    match draft.stage() {
        Stage::First => read_first_line(key, draft, words),
        Stage::Events(head) => read_event_line(key, head, draft, words),
        Stage::Ended(_) => refuse(WorkRule::BadLine),
    }
}

fn read_words(draft: &mut Draft, words: &mut Tokens<'_>) -> Result<(), LineError>
    ensures { GivesLine (λ _. draft.new) result (words_rules draft.old words.old) }
{
    match words.next() {
        None => refuse(WorkRule::BadLine),
        Some(first) => {
            let key = require(WorkRule::BadLine, key_of(&first))?;
            read_key_line(key, draft, words)
        }
    }
}

fn read_sound_words(
    alloc: Global,
    draft: &mut Draft,
    words: &mut Tokens<'_>,
) -> Result<(), LineError>
    ensures { GivesLine (λ _. draft.new) result (sound_rules draft.old words.old) }
{
    must(WorkRule::BadLine, are_sound(alloc, words)?)?;
    read_words(draft, words)
}

/// What the lines have said with one line more. Where it has a fault, the draft is not used again.
#[tactic(auto, unfolding(crate::specs::LineRules::line_rules))]
pub fn read_line(alloc: Global, draft: &mut Draft, line: &[u8]) -> Result<(), LineError>
    ensures { GivesLine (λ _. draft.new) result (line_rules draft.old line.now) }
{
    match text_of(line) {
        None => refuse(WorkRule::NotUtf8),
        Some(_) => match words_of(line) {
            Some(mut words) => read_sound_words(alloc, draft, &mut words),
            None => refuse(WorkRule::BadLine),
        },
    }
}
