//! Numbers by their digits. One below 10,000 is put in one piece, and one below 100,000,000 in two:
//! written into a buffer first, as `put_count` does, each took three times as long.
ghost use Rattle.std.specs.Prelude.{◌≡◌, ◌++◌, ◌+◌, ◌<◌, ◌≤◌, OnOk};
ghost use Rattle.std.specs.Fmt.{decimal};
ghost use Rattle.sdd_inside.specs.Json.{escaped};
ghost use Rattle.sdd_inside.specs.Pieces.{last_four};

use crate::pieces::put;
use sdd_script::{NoMemory, put_count};

/// The digit of a number below 10.
#[inline(always)]
pub(crate) fn digit(number: u64) -> u8
    requires { number < 10 }
    ensures { result ≡ 48 + number }
{
    b'0' + number as u8
}

/// Puts a number of at most four digits.
#[tactic(auto, using(crate::proofs::Digits::one, crate::proofs::Digits::two, crate::proofs::Digits::three, crate::proofs::Digits::four))]
#[inline(always)]
fn put_short(out: &mut Vec<u8>, number: u64) -> Result<(), NoMemory>
    requires { number < 10000 }
    ensures { OnOk result (out.new.items ≡ out.old.items ++ decimal number) }
{
    if number < 10 {
        put(out, &[digit(number)])
    } else if number < 100 {
        put(out, &[digit(number / 10), digit(number % 10)])
    } else if number < 1000 {
        put(
            out,
            &[
                digit(number / 100),
                digit(number / 10 % 10),
                digit(number % 10),
            ],
        )
    } else {
        put_four(out, number)
    }
}

/// Puts the last four digits of a number.
#[inline(always)]
fn put_four(out: &mut Vec<u8>, number: u64) -> Result<(), NoMemory>
    ensures { OnOk result (out.new.items ≡ out.old.items ++ last_four number) }
{
    put(
        out,
        &[
            digit(number / 1000 % 10),
            digit(number / 100 % 10),
            digit(number / 10 % 10),
            digit(number % 10),
        ],
    )
}

/// Puts a number of five to eight digits.
#[tactic(auto, using(crate::proofs::Digits::many))]
fn put_two_pieces(out: &mut Vec<u8>, number: u64) -> Result<(), NoMemory>
    requires more { 10000 ≤ number }
    requires few { number < 100000000 }
    ensures { OnOk result (out.new.items ≡ out.old.items ++ decimal number) }
{
    put_short(out, number / 10_000)?;
    put_four(out, number)
}

/// Puts a number of two digits or more.
fn put_longer(out: &mut Vec<u8>, number: u64) -> Result<(), NoMemory>
    ensures { OnOk result (out.new.items ≡ out.old.items ++ decimal number) }
{
    if number < 10_000 {
        put_short(out, number)
    } else if number < 100_000_000 {
        put_two_pieces(out, number)
    } else {
        put_count(out, number)
    }
}

/// Puts a number.
#[tactic(auto, using(std::proofs::lemmas::Fmt::decimal_digit))]
#[inline(always)]
pub(crate) fn put_decimal(out: &mut Vec<u8>, number: u64) -> Result<(), NoMemory>
    ensures { OnOk result (out.new.items ≡ out.old.items ++ decimal number) }
{
    if number < 10 {
        out.push(b'0' + number as u8)?;
        return Ok(());
    }
    put_longer(out, number)
}

/// Puts a number, as a part of a string.
#[tactic(auto, using(crate::proofs::Verbatim::number_verbatim))]
#[inline(always)]
pub fn put_escaped_count(out: &mut Vec<u8>, number: u64) -> Result<(), NoMemory>
    ensures { OnOk result (out.new.items ≡ out.old.items ++ escaped (decimal number)) }
{
    put_decimal(out, number)
}
