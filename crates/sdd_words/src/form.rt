//! The forms that words take after one another.
ghost use Rattle.std.specs.Prelude.{◌≡◌, ◌<◌, ◌∷◌, [], length, true, Some, None, IfSome, MatchOption, codes, is_some};
ghost use Rattle.std.specs.List.{list_all};
ghost use Rattle.sdd_words.specs.Keywords.{is_free, looks_like_column};
ghost use Rattle.sdd_words.specs.Forms.{comparison_key, comparisons, comparison_of, conditions_form, joined, not_empty, setting_of, settings, look_like_columns, are_free};

use crate::keyword::{adds, has_key, is_free, looks_like_column, operator};
use crate::token::Token;
use crate::tokens::Tokens;
use sdd_base::Op;
use std::marker::Model;

/// A condition as it is written.
#[derive(Drop)]
pub struct Comparison<'a> {
    pub left: Token<'a>,
    pub op: Op,
    pub right: Token<'a>,
}

/// An assignment as it is written: with `+=` where it adds, else with `=`.
#[derive(Drop)]
pub struct Setting<'a> {
    pub left: Token<'a>,
    pub adds: bool,
    pub right: Token<'a>,
}

/// Words that are conditions, read from the front.
#[derive(Drop)]
pub struct Comparisons<'a> {
    /// Whether none was read.
    is_first: bool,
    words: Tokens<'a>,
}

impl<'a> Model for Comparisons<'a> {
    ghost use Rattle.std.specs.Prelude.{◌≡◌, List, true, is_some};
    ghost use Rattle.sdd_words.specs.Forms.{comparisons, comparisons_left, comparison_key};
    ghost use Rattle.sdd_words.specs.declared.form.Comparison.{Comparison as Condition};

    ghost Value = { List Condition };

    ghost view = { λ c. comparisons_left (comparison_key c.is_first) c.words };

    ghost invariant = { λ c. is_some (comparisons (comparison_key c.is_first) c.words) ≡ true };
}

/// Words that are assignments, read from the front.
#[derive(Drop)]
pub struct Settings<'a> {
    words: Tokens<'a>,
}

impl<'a> Model for Settings<'a> {
    ghost use Rattle.std.specs.Prelude.{◌≡◌, List, true, is_some};
    ghost use Rattle.sdd_words.specs.Forms.{settings, settings_left};
    ghost use Rattle.sdd_words.specs.declared.form.Setting.{Setting as Assignment};

    ghost Value = { List Assignment };

    ghost view = { λ s. settings_left s.words };

    ghost invariant = { λ s. is_some (settings s.words) ≡ true };
}

/// What stands before a condition: `where` before the first one, else `and`.
fn comparison_key(is_first: bool) -> &'static [u8]
    ensures { result.now ≡ comparison_key is_first }
{
    if is_first { b"where" } else { b"and" }
}

/// The condition of these words.
fn comparison_of<'a>(
    key: &[u8],
    first: &Token<'_>,
    left: Token<'a>,
    op: &Token<'_>,
    right: Token<'a>,
) -> Option<Comparison<'a>>
    ensures { result ≡ comparison_of key.now first.now left.entry op.now right.entry }
{
    if has_key(key, first) && looks_like_column(&left) && is_free(&right) {
        match operator(op) {
            Some(op) => Some(Comparison { left, op, right }),
            None => None,
        }
    } else {
        None
    }
}

/// The next condition, whose words are taken away.
#[tactic(auto, using(crate::proofs::Comparing::comparison_more, crate::proofs::Comparing::no_comparison, crate::proofs::Comparing::comparisons_few))]
fn next_comparison<'a>(key: &[u8], words: &mut Tokens<'a>) -> Option<Comparison<'a>>
    ensures read { MatchOption result
        (not_empty words.old ≡ true → comparisons key.now words.old ≡ None)
        (λ one. comparisons key.now words.old ≡ joined (Some one) (comparisons (codes "and") words.new)) }
    ensures shorter { IfSome result (λ _. length words.new < length words.old) }
{
    match words.four() {
        Some((first, left, op, right)) => comparison_of(key, &first, left, &op, right),
        None => None,
    }
}

#[tactic(auto, using(crate::proofs::Comparing::are_comparisons_more, crate::proofs::Comparing::are_no_comparisons, crate::proofs::Comparing::are_comparisons_all))]
fn are_comparisons(words: &mut Tokens<'_>) -> bool
    ensures { result ≡ is_some (conditions_form words.old) }
{
    let mut is_first = true;
    'groups: while words.has_words() {
        match next_comparison(comparison_key(is_first), words) {
            Some(_) => is_first = false,
            None => return false,
        }
    }
    true
}

/// The conditions that the words are, the first after `where` and each further one after `and`, or
/// None exactly where they aren't conditions. Costs time linear in the words.
#[tactic(auto, using(crate::proofs::Comparing::all_of, crate::proofs::Comparing::none_of))]
pub fn read_comparisons(words: Tokens<'_>) -> Option<Comparisons<'_>>
    ensures { MatchOption result
        (conditions_form words.entry ≡ None)
        (λ found. conditions_form words.entry ≡ Some found) }
{
    if are_comparisons(&mut words.copy()) {
        Some(Comparisons {
            is_first: true,
            words,
        })
    } else {
        None
    }
}

impl<'a> Comparisons<'a> {
    /// The next condition, or None exactly where none is left.
    #[tactic(auto, using(crate::proofs::Comparing::first_of, crate::proofs::Comparing::more_of, crate::proofs::Comparing::none_left))]
    pub fn next(&mut self) -> Option<Comparison<'a>>
        ensures { MatchOption result
            ((self.old ≡ []) × (self.new ≡ []))
            (λ one. self.old ≡ one ∷ self.new) }
    {
        if !self.words.has_words() {
            return None;
        }
        let one = next_comparison(comparison_key(self.is_first), &mut self.words)?;
        self.is_first = false;
        Some(one)
    }
}

/// The assignment of these words.
fn assignment_of<'a>(left: Token<'a>, op: &Token<'_>, right: Token<'a>) -> Option<Setting<'a>>
    ensures { result ≡ setting_of left.entry op.now right.entry }
{
    if looks_like_column(&left) && is_free(&right) {
        match adds(op) {
            Some(adds) => Some(Setting { left, adds, right }),
            None => None,
        }
    } else {
        None
    }
}

/// The next assignment, whose words are taken away.
#[tactic(auto, using(crate::proofs::Assigning::setting_more, crate::proofs::Assigning::no_setting, crate::proofs::Assigning::settings_few))]
fn next_setting<'a>(words: &mut Tokens<'a>) -> Option<Setting<'a>>
    ensures read { MatchOption result
        (not_empty words.old ≡ true → settings words.old ≡ None)
        (λ one. settings words.old ≡ joined (Some one) (settings words.new)) }
    ensures shorter { IfSome result (λ _. length words.new < length words.old) }
{
    match words.three() {
        Some((left, op, right)) => assignment_of(left, &op, right),
        None => None,
    }
}

#[tactic(auto, using(crate::proofs::Assigning::are_settings_more, crate::proofs::Assigning::are_no_settings, crate::proofs::Assigning::are_settings_all))]
fn are_settings(words: &mut Tokens<'_>) -> bool
    ensures { result ≡ is_some (settings words.old) }
{
    'groups: while words.has_words() {
        match next_setting(words) {
            Some(_) => (),
            None => return false,
        }
    }
    true
}

/// The assignments that the words are, or None exactly where they aren't. Costs time linear in the
/// words.
#[tactic(auto, using(crate::proofs::Comparing::all_of, crate::proofs::Comparing::none_of))]
pub fn read_settings(words: Tokens<'_>) -> Option<Settings<'_>>
    ensures { MatchOption result
        (settings words.entry ≡ None)
        (λ found. settings words.entry ≡ Some found) }
{
    if are_settings(&mut words.copy()) {
        Some(Settings { words })
    } else {
        None
    }
}

impl<'a> Settings<'a> {
    /// The next assignment, or None exactly where none is left.
    #[tactic(auto, using(crate::proofs::Comparing::first_of, crate::proofs::Comparing::more_of, crate::proofs::Assigning::none_left))]
    pub fn next(&mut self) -> Option<Setting<'a>>
        ensures { MatchOption result
            ((self.old ≡ []) × (self.new ≡ []))
            (λ one. self.old ≡ one ∷ self.new) }
    {
        if !self.words.has_words() {
            return None;
        }
        next_setting(&mut self.words)
    }
}

fn all_look_like_columns(words: &mut Tokens<'_>) -> bool
    ensures { result ≡ list_all looks_like_column words.old }
{
    'words: while let Some(word) = words.next() {
        if !looks_like_column(&word) {
            return false;
        }
    }
    true
}

fn all_free(words: &mut Tokens<'_>) -> bool
    ensures { result ≡ list_all is_free words.old }
{
    'words: while let Some(word) = words.next() {
        if !is_free(&word) {
            return false;
        }
    }
    true
}

/// Whether there are words, and each can stand for a column. Costs time linear in the words.
pub fn look_like_columns(words: &Tokens<'_>) -> bool
    ensures { result ≡ look_like_columns words.now }
{
    words.has_words() && all_look_like_columns(&mut words.copy())
}

/// Whether there are words, and none is a keyword. Costs time linear in the words.
pub fn are_free(words: &Tokens<'_>) -> bool
    ensures { result ≡ are_free words.now }
{
    words.has_words() && all_free(&mut words.copy())
}
