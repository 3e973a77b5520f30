//! Writing words, piece by piece. Each call puts its piece after what was written before; where
//! memory runs out, what was written is not to be used.
ghost use Rattle.std.specs.Prelude.{◌≡◌, ◌++◌, ◌∷◌, [], ◌<◌, flat_map, length, IfOk, OnOk};
ghost use Rattle.std.specs.Fmt.{decimal, signed_decimal};
ghost use Rattle.sdd_base.specs.declared.value.Value.{Value};
ghost use Rattle.sdd_words.specs.Values.{value_word};
ghost use Rattle.sdd_words.specs.Words.{escaped, word_bytes, spaced, Quoted};

use crate::run::{is_special, run_length};
use itoa::Buffer;
use sdd_base::{NoMemory, Value};

/// Puts bytes.
pub fn put(out: &mut Vec<u8>, bytes: &[u8]) -> Result<(), NoMemory>
    ensures { OnOk result (out.new.items ≡ out.old.items ++ bytes.now) }
{
    out.extend_from_slice(bytes)?;
    Ok(())
}

/// Puts what stands at the front of a text: a quote or a backslash, after a backslash, or the bytes
/// before the next one of these. Gives what is left of the text.
#[tactic(auto, using(crate::proofs::Writes::run_written))]
fn put_front<'a>(out: &mut Vec<u8>, text: &'a [u8]) -> Result<&'a [u8], NoMemory>
    requires { 0 < length text.now }
    ensures written { IfOk result (λ rest. out.new.items ++ escaped rest.now ≡ out.old.items ++ escaped text.now) }
    ensures shorter { IfOk result (λ rest. length rest.now < length text.now) }
{
    if is_special(text[0]) {
        put(out, &[b'\\', text[0]])?;
        return Ok(&text[1..]);
    }
    let length = run_length(text);
    put(out, &text[..length])?;
    Ok(&text[length..])
}

fn put_escaped(out: &mut Vec<u8>, text: &[u8]) -> Result<(), NoMemory>
    ensures { OnOk result (out.new.items ≡ out.old.items ++ escaped text.now) }
{
    let mut rest = text;
    'fronts: while !rest.is_empty() {
        rest = put_front(out, rest)?;
    }
    Ok(())
}

/// Puts a text between quotes, with its quotes and backslashes after backslashes. Costs time linear
/// in the text: one search and one copy for each run of bytes without these.
pub fn put_text(out: &mut Vec<u8>, text: &[u8]) -> Result<(), NoMemory>
    ensures { OnOk result (out.new.items ≡ out.old.items ++ word_bytes (Quoted text.now)) }
{
    out.push(b'"')?;
    put_escaped(out, text)?;
    out.push(b'"')?;
    Ok(())
}

/// Puts a number by its one spelling.
pub fn put_number(out: &mut Vec<u8>, number: &i64) -> Result<(), NoMemory>
    ensures { OnOk result (out.new.items ≡ out.old.items ++ signed_decimal number.now) }
{
    let mut buffer = Buffer::new();
    put(out, buffer.format(*number).as_bytes())
}

/// Puts a number, as that of a count, by its one spelling.
pub fn put_count(out: &mut Vec<u8>, number: u64) -> Result<(), NoMemory>
    ensures { OnOk result (out.new.items ≡ out.old.items ++ decimal number) }
{
    let mut buffer = Buffer::new();
    put(out, buffer.format(number).as_bytes())
}

/// Puts a value: a number by its one spelling, a text between quotes.
pub fn put_value(out: &mut Vec<u8>, value: &Value) -> Result<(), NoMemory>
    ensures { OnOk result (out.new.items ≡ out.old.items ++ word_bytes (value_word value.now)) }
{
    match value {
        Value::Int(number) => put_number(out, number),
        Value::Text(text) => put_text(out, text.as_str().as_bytes()),
    }
}

fn put_spaced(out: &mut Vec<u8>, value: &Value) -> Result<(), NoMemory>
    ensures { OnOk result (out.new.items ≡ out.old.items ++ spaced (value_word value.now)) }
{
    out.push(b' ')?;
    put_value(out, value)
}

/// Puts values, each after a space. Costs time linear in what is put.
#[tactic(auto, using(crate::proofs::Written::item_written, crate::proofs::Written::items_written))]
pub fn put_values(out: &mut Vec<u8>, values: &[Value]) -> Result<(), NoMemory>
    ensures { OnOk result (out.new.items ≡ out.old.items ++ flat_map (λ (v : Value). spaced (value_word v)) values.now) }
{
    'values: for value in values {
        put_spaced(out, value)?;
    }
    Ok(())
}
