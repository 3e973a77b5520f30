//! Words that are put after a space.
ghost use Rattle.std.specs.Prelude.{◌≡◌, ◌++◌, ◌∷◌, OnOk};
ghost use Rattle.std.specs.Fmt.{decimal};
ghost use Rattle.sdd_report.specs.Names.{spaced, attempt_word, class_word, fragment_name, module_word, site_word, class_time, txn_name};

use crate::names::{class_word, fragment_name, txn_name};
use itoa::Buffer;
use sdd_lang::{Catalogue, ClassNo, DmNo, FragNo, NoMemory, Site, Ts, Txn, TxnNo};
use sdd_words::{put, put_count};

pub fn put_word(out: &mut Vec<u8>, word: &[u8]) -> Result<(), NoMemory>
    ensures { OnOk result (out.new.items ≡ out.old.items ++ spaced word.now) }
{
    put(out, b" ")?;
    put(out, word)
}

pub fn put_number(out: &mut Vec<u8>, number: u64) -> Result<(), NoMemory>
    ensures { OnOk result (out.new.items ≡ out.old.items ++ spaced (decimal number)) }
{
    put(out, b" ")?;
    put_count(out, number)
}

pub fn put_large_number(out: &mut Vec<u8>, number: u128) -> Result<(), NoMemory>
    ensures { OnOk result (out.new.items ≡ out.old.items ++ spaced (decimal number)) }
{
    let mut buffer = Buffer::new();
    put_word(out, buffer.format(number).as_bytes())
}

pub fn put_txn(out: &mut Vec<u8>, txns: &[Txn], txn: TxnNo) -> Result<(), NoMemory>
    ensures { OnOk result (out.new.items ≡ out.old.items ++ spaced (txn_name txns.now txn.0)) }
{
    put_word(out, txn_name(txns, txn))
}

/// The end of an attempt's word.
fn put_attempt_number(out: &mut Vec<u8>, attempt: u64) -> Result<(), NoMemory>
    ensures { OnOk result (out.new.items ≡ out.old.items ++ 35 ∷ decimal attempt) }
{
    put(out, b"#")?;
    put_count(out, attempt)
}

pub fn put_attempt(
    out: &mut Vec<u8>,
    txns: &[Txn],
    txn: TxnNo,
    attempt: u64,
) -> Result<(), NoMemory>
    ensures { OnOk result (out.new.items ≡ out.old.items ++ spaced (attempt_word txns.now txn.0 attempt)) }
{
    put_txn(out, txns, txn)?;
    put_attempt_number(out, attempt)
}

pub fn put_class(out: &mut Vec<u8>, catalogue: &Catalogue, class: ClassNo) -> Result<(), NoMemory>
    ensures { OnOk result (out.new.items ≡ out.old.items ++ spaced (class_word catalogue.now class.0)) }
{
    put_word(out, class_word(catalogue, class))
}

pub fn put_fragment(out: &mut Vec<u8>, catalogue: &Catalogue, frag: FragNo) -> Result<(), NoMemory>
    ensures { OnOk result (out.new.items ≡ out.old.items ++ spaced (fragment_name catalogue.now frag.0)) }
{
    put_word(out, fragment_name(catalogue, frag))
}

pub fn put_module(out: &mut Vec<u8>, dm: DmNo) -> Result<(), NoMemory>
    ensures { OnOk result (out.new.items ≡ out.old.items ++ spaced (module_word dm.0)) }
{
    put(out, b" D")?;
    put_count(out, u64::from(dm.0))
}

pub fn put_site(out: &mut Vec<u8>, site: Site) -> Result<(), NoMemory>
    ensures { OnOk result (out.new.items ≡ out.old.items ++ spaced (site_word site)) }
{
    match site {
        Site::U => put(out, b" U"),
        Site::T(tm) => {
            put(out, b" T")?;
            put_count(out, u64::from(tm.0))
        }
        Site::D(dm) => put_module(out, dm),
    }
}

/// A class, and a number that belongs to it.
pub fn put_class_number(
    out: &mut Vec<u8>,
    catalogue: &Catalogue,
    class: ClassNo,
    number: u64,
) -> Result<(), NoMemory>
    ensures { OnOk result (out.new.items ≡ out.old.items ++ class_time catalogue.now class.0 number) }
{
    put_class(out, catalogue, class)?;
    put_number(out, number)
}

pub fn put_class_time(
    out: &mut Vec<u8>,
    catalogue: &Catalogue,
    class: ClassNo,
    time: Ts,
) -> Result<(), NoMemory>
    ensures { OnOk result (out.new.items ≡ out.old.items ++ class_time catalogue.now class.0 time.0) }
{
    put_class_number(out, catalogue, class, time.0)
}
