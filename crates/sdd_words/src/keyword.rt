//! Words that stand for themselves, and the places that a word can take by its looks.
ghost use Rattle.std.specs.Prelude.{◌≡◌, IfOk};
ghost use Rattle.sdd_base.specs.Name.{is_keyword, is_name};
ghost use Rattle.sdd_words.specs.Keywords.{is_key, op_in, op_of, adds_in, adds_of, is_reserved, is_free, looks_like_column, spells_column, names_column};

use crate::naming::read_name;
use crate::point::parts_at_point;
use crate::token::Token;
use crate::whole::are_whole_digits;
use sdd_base::{NoMemory, Op};
use std::alloc::Global;

/// Whether the word is this one, written plainly. Takes no memory.
pub fn has_key(key: &[u8], word: &Token<'_>) -> bool
    ensures { result ≡ is_key key.now word.now }
{
    match word.plain() {
        Some(bytes) => bytes == key,
        None => false,
    }
}

fn operator_in(bytes: &[u8]) -> Option<Op>
    ensures { result ≡ op_in bytes.now }
{
    if bytes == b"=".as_slice() {
        Some(Op::Eq)
    } else if bytes == b"!=".as_slice() {
        Some(Op::Ne)
    } else if bytes == b"<".as_slice() {
        Some(Op::Lt)
    } else if bytes == b"<=".as_slice() {
        Some(Op::Le)
    } else if bytes == b">".as_slice() {
        Some(Op::Gt)
    } else if bytes == b">=".as_slice() {
        Some(Op::Ge)
    } else {
        None
    }
}

/// The operator that the word is. Takes no memory.
pub fn operator(word: &Token<'_>) -> Option<Op>
    ensures { result ≡ op_of word.now }
{
    match word.plain() {
        Some(bytes) => operator_in(bytes),
        None => None,
    }
}

fn adds_in(bytes: &[u8]) -> Option<bool>
    ensures { result ≡ adds_in bytes.now }
{
    if bytes == b"=".as_slice() {
        Some(false)
    } else if bytes == b"+=".as_slice() {
        Some(true)
    } else {
        None
    }
}

/// Whether the word is `=`, false, or `+=`, true. Takes no memory.
pub fn adds(word: &Token<'_>) -> Option<bool>
    ensures { result ≡ adds_of word.now }
{
    match word.plain() {
        Some(bytes) => adds_in(bytes),
        None => None,
    }
}

fn is_keyword(bytes: &[u8]) -> bool
    ensures { result ≡ is_keyword bytes.now }
{
    bytes == b"from".as_slice()
        || bytes == b"where".as_slice()
        || bytes == b"and".as_slice()
        || bytes == b"set".as_slice()
}

fn is_reserved(bytes: &[u8]) -> bool
    ensures { result ≡ is_reserved bytes.now }
{
    is_keyword(bytes) || bytes == b"+=".as_slice() || operator_in(bytes).is_some()
}

/// Whether the word can stand for a name, a number, a site or a value: it is no keyword. Takes no
/// memory.
pub fn is_free(word: &Token<'_>) -> bool
    ensures { result ≡ is_free word.now }
{
    match word.plain() {
        Some(bytes) => !is_reserved(bytes),
        None => true,
    }
}

/// Whether the word can stand for a column of a use: it has one point. Takes no memory.
pub fn looks_like_column(word: &Token<'_>) -> bool
    ensures { result ≡ looks_like_column word.now }
{
    word.has_one_point()
}

#[tactic(auto, using(crate::proofs::NameTexts::unnamed))]
fn is_name(alloc: Global, bytes: &[u8]) -> Result<bool, NoMemory>
    ensures { IfOk result (λ b. b ≡ is_name bytes.now) }
{
    match read_name(alloc, bytes) {
        Ok(Some(_)) => Ok(true),
        Ok(None) => Ok(false),
        Err(e) => Err(e),
    }
}

fn spells_column(alloc: Global, bytes: &[u8]) -> Result<bool, NoMemory>
    ensures { IfOk result (λ b. b ≡ spells_column bytes.now) }
{
    let (number, name) = parts_at_point(bytes);
    if are_whole_digits(number) {
        is_name(alloc, name)
    } else {
        Ok(false)
    }
}

/// Whether the word after the operator stands for a column: the operator is `=`, and the word is a
/// number without sign, a point and a name.
pub fn names_column(alloc: Global, op: Op, word: &Token<'_>) -> Result<bool, NoMemory>
    ensures { IfOk result (λ b. b ≡ names_column op word.now) }
{
    match (op, word.plain()) {
        (Op::Eq, Some(bytes)) => spells_column(alloc, bytes),
        _ => Ok(false),
    }
}
