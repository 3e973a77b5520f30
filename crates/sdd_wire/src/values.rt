ghost use Rattle.std.specs.Prelude.{◌≡◌, IfOk};
ghost use Rattle.sdd_base.specs.Readings.{GivesReading, require};
ghost use Rattle.sdd_wire.specs.Spelling.{spelled_text, spelled_value, spelled_op};
ghost use Rattle.sdd_wire.specs.Fits.{FitsValue, FitsOp};
ghost use Rattle.sdd_wire.specs.Reading.{text_in, text_at, value_at, op_at, fault_in};
ghost use Rattle.sdd_base.specs.Text.{IsText};

use crate::fault::WireFault;
use crate::source::Source;
use crate::spelled::Spelled;
use sdd_base::{NoMemory, Op, Text, Value};
use std::alloc::Global;

/// The text, which must be one of a column, or else a fault at its place.
#[tactic(auto, using(crate::proofs::Texts::text_found, crate::proofs::Texts::no_text))]
fn column_text(alloc: Global, place: u64, text: &str) -> Result<Text, WireFault>
    ensures { GivesReading fault_in (λ found. found) result (require place (text_in text.now)) }
{
    match Text::new(alloc, text)? {
        Some(found) => Ok(found),
        None => Err(WireFault::Bad(place)),
    }
}

/// The text that the bytes are, in UTF-8, or else a fault at their place.
#[tactic(auto, using(crate::proofs::Texts::no_utf8))]
fn text_in(alloc: Global, place: u64, bytes: &[u8]) -> Result<Text, WireFault>
    ensures { GivesReading fault_in (λ found. found) result (require place (text_in bytes.now)) }
{
    match std::str::from_utf8(bytes) {
        Ok(text) => column_text(alloc, place, text),
        Err(_) => Err(WireFault::Bad(place)),
    }
}

impl Spelled for Text {
    ghost spelling = { spelled_text };

    ghost reading = { text_at };

    ghost fits = { IsText };

    fn put(&self, out: &mut Vec<u8>) -> Result<(), NoMemory> {
        let bytes = self.as_str().as_bytes();
        out.push(bytes.len() as u8)?;
        out.extend_from_slice(bytes)?;
        Ok(())
    }

    #[tactic(auto, unfolding(crate::specs::Reading::text_at))]
    fn read(alloc: Global, source: &mut Source<'_>) -> Result<Self, WireFault> {
        let size = source.byte()?;
        let place = source.place();
        let bytes = source.piece(size as usize)?;
        text_in(alloc, place, bytes)
    }
}

impl Spelled for Value {
    ghost spelling = { spelled_value };

    ghost reading = { value_at };

    ghost fits = { FitsValue };

    fn put(&self, out: &mut Vec<u8>) -> Result<(), NoMemory> {
        match self {
            Value::Int(number) => {
                out.push(0)?;
                number.put(out)
            }
            Value::Text(text) => {
                out.push(1)?;
                text.put(out)
            }
        }
    }

    #[tactic(auto, unfolding(crate::specs::Reading::value_at))]
    fn read(alloc: Global, source: &mut Source<'_>) -> Result<Self, WireFault> {
        if source.flag()? {
            Ok(Value::Text(Text::read(alloc, source)?))
        } else {
            Ok(Value::Int(i64::read(alloc, source)?))
        }
    }
}

impl Spelled for Op {
    ghost spelling = { spelled_op };

    ghost reading = { op_at };

    ghost fits = { FitsOp };

    fn put(&self, out: &mut Vec<u8>) -> Result<(), NoMemory> {
        let byte = match self {
            Op::Eq => 1,
            Op::Ne => 2,
            Op::Lt => 3,
            Op::Le => 4,
            Op::Gt => 5,
            Op::Ge => 6,
        };
        out.push(byte)?;
        Ok(())
    }

    #[tactic(auto, unfolding(crate::specs::Reading::op_at), using(crate::proofs::Numbered::none_there))]
    fn read(_alloc: Global, source: &mut Source<'_>) -> Result<Self, WireFault> {
        let place = source.place();
        match source.byte()? {
            1 => Ok(Op::Eq),
            2 => Ok(Op::Ne),
            3 => Ok(Op::Lt),
            4 => Ok(Op::Le),
            5 => Ok(Op::Gt),
            6 => Ok(Op::Ge),
            _ => Err(WireFault::Bad(place)),
        }
    }
}
