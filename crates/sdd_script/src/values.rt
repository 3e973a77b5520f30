//! Values and rows, by their words.
ghost use Rattle.std.specs.Prelude.{◌≡◌, length, IfOk, Some, None};
ghost use Rattle.sdd_words.specs.Texts.{text_in};
ghost use Rattle.sdd_words.specs.Words.{Quoted};
ghost use Rattle.sdd_script.specs.Naming.{kind_of_place};
ghost use Rattle.sdd_lang.specs.All.{GivesReading};
ghost use Rattle.sdd_script.specs.Few.{few, few_of, few_row};
ghost use Rattle.sdd_script.specs.Rules.{rule_in};
ghost use Rattle.sdd_script.specs.Values.{is_of_kind, value_of, values_of, row_of};

use crate::fault::{LineError, WorkRule, must, require};
use crate::few::keep_few;
use crate::naming::{columns_of, kind_of_place, relation_of};
use sdd_lang::{Catalogue, Column, Kind, NoMemory, RelNo, Row, Text, Value};
use sdd_words::{Token, Tokens, is_text, number_in, text_of};
use std::alloc::Global;

/// Whether the kind will do, as any does where there is none.
pub fn is_of_kind(kind: Option<Kind>, own: Kind) -> bool
    ensures { result ≡ is_of_kind kind own }
{
    match (kind, own) {
        (None, _) => true,
        (Some(Kind::Int), Kind::Int) => true,
        (Some(Kind::Text), Kind::Text) => true,
        _ => false,
    }
}

/// The text of the bytes, or None exactly where they are none.
fn read_text(alloc: Global, bytes: &[u8]) -> Result<Option<Text>, NoMemory>
    ensures { IfOk result (λ text. text ≡ text_in bytes.now) }
{
    match text_of(bytes) {
        Some(text) if is_text(bytes) => Text::new(alloc, text),
        _ => Ok(None),
    }
}

/// The value that a word is, of the kind, or of any where there is none.
pub fn read_value(alloc: Global, kind: Option<Kind>, word: &Token<'_>) -> Result<Value, LineError>
    ensures { GivesReading rule_in (λ v. v) result (value_of kind word.now) }
{
    match word.plain() {
        Some(bytes) => {
            let number = require(WorkRule::BadNumber, number_in(bytes))?;
            must(WorkRule::WrongKind, is_of_kind(kind, Kind::Int))?;
            Ok(Value::Int(number))
        }
        None => {
            let bytes = word.content(alloc)?;
            let text = require(WorkRule::BadLine, read_text(alloc, bytes.as_slice())?)?;
            must(WorkRule::WrongKind, is_of_kind(kind, Kind::Text))?;
            Ok(Value::Text(text))
        }
    }
}

/// The value that a word is, of the kind of the column at a place.
fn value_at(
    alloc: Global,
    columns: &[Column],
    place: usize,
    word: &Token<'_>,
) -> Result<Value, LineError>
    ensures { GivesReading rule_in (λ v. v) result (value_of (kind_of_place columns.now place) word.now) }
{
    read_value(alloc, kind_of_place(columns, place), word)
}

/// The values that words are, each of its column's kind; of too many the first ones.
#[tactic(auto, using(crate::proofs::FewRead::few_loop))]
fn read_values(
    alloc: Global,
    columns: &[Column],
    words: &mut Tokens<'_>,
) -> Result<Vec<Value>, LineError>
    ensures { GivesReading rule_in (λ v. v.items) result
        (few (length columns.now) (values_of columns.now words.old)) }
{
    let mut values = Vec::new(alloc);
    'words: while let Some(word) = words.next() {
        let value = value_at(alloc, columns, values.len(), &word)?;
        keep_few(&mut values, columns.len(), value)?;
    }
    Ok(values)
}

/// A row of a relation with these columns, by its values.
fn read_row_of(
    alloc: Global,
    columns: &[Column],
    rel: RelNo,
    words: &mut Tokens<'_>,
) -> Result<(RelNo, Row), LineError>
    ensures { GivesReading rule_in (λ r. r) result (few_row columns.now rel words.old) }
{
    let row = read_values(alloc, columns, words)?;
    must(WorkRule::WrongKind, row.len() == columns.len())?;
    Ok((rel, Row::from_vec(row)?))
}

/// A relation and a row of it, whose values are counted when enough of them are read.
fn read_few(
    alloc: Global,
    catalogue: &Catalogue,
    name: &Token<'_>,
    words: &mut Tokens<'_>,
) -> Result<(RelNo, Row), LineError>
    ensures { GivesReading rule_in (λ r. r) result (few_of catalogue.now name.now words.old) }
{
    let rel = require(WorkRule::UnknownName, relation_of(catalogue, name))?;
    read_row_of(alloc, columns_of(catalogue, rel), RelNo(rel), words)
}

/// A relation and a row of it, by the relation's name and the values. Of too many values no more are
/// kept than tell that they are too many.
pub fn read_row(
    alloc: Global,
    catalogue: &Catalogue,
    name: &Token<'_>,
    words: &mut Tokens<'_>,
) -> Result<(RelNo, Row), LineError>
    ensures { GivesReading rule_in (λ r. r) result (row_of catalogue.now name.now words.old) }
{
    read_few(alloc, catalogue, name, words)
}
