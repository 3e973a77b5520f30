//! Strings as JSON spells them.
ghost use Rattle.std.specs.Prelude.{◌≡◌, ◌++◌, ◌<◌, true, OnOk};
ghost use Rattle.std.specs.List.{list_all};
ghost use Rattle.sdd_inside.specs.Json.{hex_digit, is_verbatim, numbered, escaped_byte, escaped, quoted};

use crate::pieces::put;
use sdd_script::NoMemory;

fn hex_digit(n: u8) -> u8
    requires { n < 16 }
    ensures { result ≡ hex_digit n }
{
    if n < 10 { b'0' + n } else { 87 + n }
}

fn put_numbered(out: &mut Vec<u8>, byte: u8) -> Result<(), NoMemory>
    requires { byte < 32 }
    ensures { OnOk result (out.new.items ≡ out.old.items ++ numbered byte) }
{
    put(out, b"\\u00")?;
    if byte < 16 {
        put(out, &[b'0', hex_digit(byte)])
    } else {
        put(out, &[b'1', hex_digit(byte - 16)])
    }
}

fn put_control(out: &mut Vec<u8>, byte: u8) -> Result<(), NoMemory>
    requires { byte < 32 }
    ensures { OnOk result (out.new.items ≡ out.old.items ++ escaped_byte byte) }
{
    if byte == 8 {
        put(out, b"\\b")
    } else if byte == 9 {
        put(out, b"\\t")
    } else if byte == 10 {
        put(out, b"\\n")
    } else if byte == 12 {
        put(out, b"\\f")
    } else if byte == 13 {
        put(out, b"\\r")
    } else {
        put_numbered(out, byte)
    }
}

fn put_byte(out: &mut Vec<u8>, byte: &u8) -> Result<(), NoMemory>
    ensures { OnOk result (out.new.items ≡ out.old.items ++ escaped_byte byte.now) }
{
    let byte = *byte;
    if byte == b'"' || byte == b'\\' {
        put(out, &[b'\\', byte])
    } else if byte < 32 {
        put_control(out, byte)
    } else {
        put(out, &[byte])
    }
}

#[tactic(auto, using(crate::proofs::Loops::written))]
fn put_bytes(out: &mut Vec<u8>, part: &[u8]) -> Result<(), NoMemory>
    ensures { OnOk result (out.new.items ≡ out.old.items ++ escaped part.now) }
{
    'part: for byte in part {
        put_byte(out, byte)?;
    }
    Ok(())
}

/// Whether a byte of a string stands for itself.
#[inline(always)]
fn is_verbatim(byte: u8) -> bool
    ensures { result ≡ is_verbatim byte }
{
    32 <= byte && byte != b'"' && byte != b'\\'
}

/// Whether each byte stands for itself.
#[inline(always)]
fn are_verbatim(part: &[u8]) -> bool
    ensures { result ≡ list_all is_verbatim part.now }
{
    part.iter().all(|byte| is_verbatim(*byte))
}

/// Puts a part of a string. Costs time linear in it; it is copied in one piece where each of its
/// bytes stands for itself, as in a name.
#[tactic(auto, using(crate::proofs::Verbatim::verbatim))]
pub fn put_escaped(out: &mut Vec<u8>, part: &[u8]) -> Result<(), NoMemory>
    ensures { OnOk result (out.new.items ≡ out.old.items ++ escaped part.now) }
{
    if are_verbatim(part) {
        return put(out, part);
    }
    put_bytes(out, part)
}

/// Puts a part of a string in which each byte stands for itself.
#[tactic(auto, using(crate::proofs::Verbatim::verbatim))]
#[inline(always)]
pub(crate) fn put_verbatim(out: &mut Vec<u8>, part: &[u8]) -> Result<(), NoMemory>
    requires { list_all is_verbatim part.now ≡ true }
    ensures { OnOk result (out.new.items ≡ out.old.items ++ escaped part.now) }
{
    put(out, part)
}

/// Puts a string in which each byte stands for itself, as in a name.
#[inline(always)]
pub(crate) fn put_plain(out: &mut Vec<u8>, string: &[u8]) -> Result<(), NoMemory>
    requires { list_all is_verbatim string.now ≡ true }
    ensures { OnOk result (out.new.items ≡ out.old.items ++ quoted string.now) }
{
    put(out, b"\"")?;
    put_verbatim(out, string)?;
    put(out, b"\"")
}

/// Puts a string. Costs time linear in it.
#[inline(always)]
pub fn put_quoted(out: &mut Vec<u8>, string: &[u8]) -> Result<(), NoMemory>
    ensures { OnOk result (out.new.items ≡ out.old.items ++ quoted string.now) }
{
    put(out, b"\"")?;
    put_escaped(out, string)?;
    put(out, b"\"")
}
