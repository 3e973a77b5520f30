//! Numbers, names, times and rows in a line.
ghost use Rattle.std.specs.Prelude.{◌≡◌, ◌++◌, ◌∷◌, [], map, true, OnOk};
ghost use Rattle.std.specs.Fmt.{decimal, signed_decimal};
ghost use Rattle.std.specs.List.{list_all};
ghost use Rattle.sdd_report.specs.Names.{class_word};
ghost use Rattle.sdd_script.specs.words.Values.{value_word};
ghost use Rattle.sdd_script.specs.words.Words.{line_bytes};
ghost use Rattle.sdd_inside.specs.Json.{is_verbatim, quoted, pair};
ghost use Rattle.sdd_inside.specs.Words.{is_number, number_json, time_json, class_json, fragment_json, txn_json, attempt_json, site_json, dm_json, key_json, row_json, row_or_null_json, cond_json, change_json};

use crate::escape::{put_plain, put_quoted, put_verbatim};
use crate::names::{class_word, fragment_name, txn_name};
use crate::numbers::{digit, put_decimal, put_escaped_count};
use crate::pieces::put;
use crate::to_json::{ToJson, split_head, tell_triple};
use itoa::Buffer;
use sdd_script::{
    Catalogue, Change, ClassNo, Cond, DmNo, FragNo, NoMemory, Row, Site, Ts, Txn, TxnNo, Value,
    put_value, put_values,
};

impl ToJson for u32 {
    ghost json = { number_json };

    fn tell(
        &self,
        out: &mut Vec<u8>,
        _catalogue: &Catalogue,
        _txns: &[Txn],
    ) -> Result<(), NoMemory> {
        put_decimal(out, u64::from(*self))
    }
}

impl ToJson for Ts {
    ghost json = { time_json };

    fn tell(
        &self,
        out: &mut Vec<u8>,
        _catalogue: &Catalogue,
        _txns: &[Txn],
    ) -> Result<(), NoMemory> {
        put_decimal(out, self.0)
    }
}

impl ToJson for ClassNo {
    ghost json = { class_json };

    fn tell(
        &self,
        out: &mut Vec<u8>,
        catalogue: &Catalogue,
        _txns: &[Txn],
    ) -> Result<(), NoMemory> {
        put_plain(out, class_word(catalogue, *self))
    }
}

impl ToJson for FragNo {
    ghost json = { fragment_json };

    fn tell(
        &self,
        out: &mut Vec<u8>,
        catalogue: &Catalogue,
        _txns: &[Txn],
    ) -> Result<(), NoMemory> {
        put_plain(out, fragment_name(catalogue, *self))
    }
}

impl ToJson for TxnNo {
    ghost json = { txn_json };

    fn tell(
        &self,
        out: &mut Vec<u8>,
        _catalogue: &Catalogue,
        txns: &[Txn],
    ) -> Result<(), NoMemory> {
        put_plain(out, txn_name(txns, *self))
    }
}

/// Puts the word of a module, a letter and its number, as a string: in one piece where the number has
/// at most two digits, as all modules of a catalogue have.
#[tactic(auto, using(crate::proofs::Digits::module_of_one, crate::proofs::Digits::module_of_two, crate::proofs::Digits::module_put))]
#[inline(always)]
fn put_module(out: &mut Vec<u8>, letter: u8, number: u8) -> Result<(), NoMemory>
    requires { is_verbatim letter ≡ true }
    ensures { OnOk result (out.new.items ≡ out.old.items ++ quoted (letter ∷ decimal number)) }
{
    if number < 10 {
        return put(out, &[b'"', letter, b'0' + number, b'"']);
    }
    if number < 100 {
        return put(
            out,
            &[b'"', letter, b'0' + number / 10, b'0' + number % 10, b'"'],
        );
    }
    put(out, &[b'"', letter])?;
    put_decimal(out, u64::from(number))?;
    put(out, b"\"")
}

impl ToJson for DmNo {
    ghost json = { dm_json };

    fn tell(
        &self,
        out: &mut Vec<u8>,
        _catalogue: &Catalogue,
        _txns: &[Txn],
    ) -> Result<(), NoMemory> {
        put_module(out, b'D', self.0)
    }
}

impl ToJson for Site {
    ghost json = { site_json };

    fn tell(
        &self,
        out: &mut Vec<u8>,
        _catalogue: &Catalogue,
        _txns: &[Txn],
    ) -> Result<(), NoMemory> {
        match self {
            Site::U => put(out, b"\"U\""),
            Site::T(tm) => put_module(out, b'T', tm.0),
            Site::D(dm) => put_module(out, b'D', dm.0),
        }
    }
}

/// Puts an attempt of a transaction.
#[tactic(auto, using(crate::proofs::Strings::attempt_put))]
pub(crate) fn put_attempt(
    out: &mut Vec<u8>,
    txns: &[Txn],
    txn: TxnNo,
    attempt: u64,
) -> Result<(), NoMemory>
    ensures { OnOk result (out.new.items ≡ out.old.items ++ attempt_json txns.now txn attempt) }
{
    put(out, b"\"")?;
    put_verbatim(out, txn_name(txns, txn))?;
    put(out, b"#")?;
    put_escaped_count(out, attempt)?;
    put(out, b"\"")
}

/// Puts a key as a string, in which each byte stands for itself.
#[tactic(auto, using(crate::proofs::Strings::key_put))]
#[inline(always)]
fn put_key(out: &mut Vec<u8>, key: &i64) -> Result<(), NoMemory>
    ensures { OnOk result (out.new.items ≡ out.old.items ++ quoted (signed_decimal key.now)) }
{
    let mut buffer = Buffer::new();
    put(out, b"\"")?;
    put(out, buffer.format(*key).as_bytes())?;
    put(out, b"\"")
}

impl ToJson for i64 {
    ghost json = { key_json };

    fn tell(
        &self,
        out: &mut Vec<u8>,
        _catalogue: &Catalogue,
        _txns: &[Txn],
    ) -> Result<(), NoMemory> {
        put_key(out, self)
    }
}

#[tactic(auto, using(crate::proofs::Strings::values_put))]
fn put_some_words(out: &mut Vec<u8>, first: &Value, rest: &[Value]) -> Result<(), NoMemory>
    ensures { OnOk result (out.new.items ≡ out.old.items ++ line_bytes (map value_word (first.now ∷ rest.now))) }
{
    put_value(out, first)?;
    put_values(out, rest)
}

/// Puts the values of a row as a workload spells them.
fn put_row_words(out: &mut Vec<u8>, values: &[Value]) -> Result<(), NoMemory>
    ensures { OnOk result (out.new.items ≡ out.old.items ++ line_bytes (map value_word values.now)) }
{
    match split_head(values) {
        Some((first, rest)) => put_some_words(out, first, rest),
        None => Ok(()),
    }
}

fn is_number(value: &Value) -> bool
    ensures { result ≡ is_number value.now }
{
    match value {
        Value::Int(_) => true,
        Value::Text(_) => false,
    }
}

fn are_numbers(values: &[Value]) -> bool
    ensures { result ≡ list_all is_number values.now }
{
    values.iter().all(|value| is_number(value))
}

/// Puts a row of numbers as a string, in which each byte stands for itself.
#[tactic(auto, using(crate::proofs::Strings::numbers_put))]
fn put_numbers(out: &mut Vec<u8>, values: &[Value]) -> Result<(), NoMemory>
    requires { list_all is_number values.now ≡ true }
    ensures { OnOk result (out.new.items ≡ out.old.items ++ quoted (line_bytes (map value_word values.now))) }
{
    put(out, b"\"")?;
    put_row_words(out, values)?;
    put(out, b"\"")
}

/// Puts a row as a string.
fn put_row(out: &mut Vec<u8>, values: &[Value]) -> Result<(), NoMemory>
    ensures { OnOk result (out.new.items ≡ out.old.items ++ quoted (line_bytes (map value_word values.now))) }
{
    if are_numbers(values) {
        return put_numbers(out, values);
    }
    let mut words = Vec::new(*out.allocator());
    put_row_words(&mut words, values)?;
    put_quoted(out, words.as_slice())
}

impl ToJson for Row {
    ghost json = { row_json };

    fn tell(
        &self,
        out: &mut Vec<u8>,
        _catalogue: &Catalogue,
        _txns: &[Txn],
    ) -> Result<(), NoMemory> {
        put_row(out, self.as_slice())
    }
}

impl ToJson for Option<Row> {
    ghost json = { row_or_null_json };

    fn tell(&self, out: &mut Vec<u8>, catalogue: &Catalogue, txns: &[Txn]) -> Result<(), NoMemory> {
        match self {
            Some(row) => row.tell(out, catalogue, txns),
            None => put(out, b"null"),
        }
    }
}

/// Puts the end of a condition: that of the name of its class, its time, and the end of the list. A time
/// of three or four digits, which most have, is put with all of it in one piece.
#[tactic(auto, using(crate::proofs::Digits::end_of_three, crate::proofs::Digits::end_of_four, crate::proofs::Digits::end_put))]
#[inline(always)]
fn put_cond_end(out: &mut Vec<u8>, time: u64) -> Result<(), NoMemory>
    ensures { OnOk result (out.new.items ≡ out.old.items ++ 34 ∷ 44 ∷ (decimal time ++ 93 ∷ [])) }
{
    if 100 <= time && time < 1000 {
        return put(
            out,
            &[
                b'"',
                b',',
                digit(time / 100),
                digit(time / 10 % 10),
                digit(time % 10),
                b']',
            ],
        );
    }
    if 1000 <= time && time < 10_000 {
        return put(
            out,
            &[
                b'"',
                b',',
                digit(time / 1000),
                digit(time / 100 % 10),
                digit(time / 10 % 10),
                digit(time % 10),
                b']',
            ],
        );
    }
    put(out, b"\",")?;
    put_decimal(out, time)?;
    put(out, b"]")
}

/// Puts a condition. A READ of an undeclared transaction has many, and a data module at which it waits
/// tells those that aren't met after each event: they are a third of some texts.
#[tactic(auto, using(crate::proofs::Members::cond_put))]
#[inline(always)]
fn put_cond(out: &mut Vec<u8>, catalogue: &Catalogue, cond: &Cond) -> Result<(), NoMemory>
    ensures { OnOk result (
        out.new.items ≡ out.old.items ++ pair (quoted (class_word catalogue.now cond.now.class.0)) (decimal cond.now.time.0)) }
{
    put(out, b"[\"")?;
    put_verbatim(out, class_word(catalogue, cond.class))?;
    put_cond_end(out, cond.time.0)
}

impl ToJson for Cond {
    ghost json = { cond_json };

    #[inline(always)]
    fn tell(
        &self,
        out: &mut Vec<u8>,
        catalogue: &Catalogue,
        _txns: &[Txn],
    ) -> Result<(), NoMemory> {
        put_cond(out, catalogue, self)
    }
}

impl ToJson for Change {
    ghost json = { change_json };

    fn tell(&self, out: &mut Vec<u8>, catalogue: &Catalogue, txns: &[Txn]) -> Result<(), NoMemory> {
        tell_triple(out, &self.frag, &self.key, &self.row, catalogue, txns)
    }
}
