//! The names of what has a number; a number past the last has the empty name. No byte of a name is escaped
//! in a string.
ghost use Rattle.std.specs.Prelude.{◌≡◌, true};
ghost use Rattle.std.specs.List.{list_all};
ghost use Rattle.sdd_report.specs.Names.{class_name, class_word, fragment_name, txn_name};
ghost use Rattle.sdd_inside.specs.Json.{is_verbatim};

use sdd_script::{Catalogue, ClassNo, FragNo, Txn, TxnNo};

/// The name of a transaction, by its number from 1; empty past the last.
#[tactic(auto, using(crate::proofs::Verbatim::name_verbatim))]
pub fn txn_name(txns: &[Txn], txn: TxnNo) -> &[u8]
    ensures value { result.now ≡ txn_name txns.now txn.0 }
    ensures verbatim { list_all is_verbatim result.now ≡ true }
{
    match txns.get((txn.0 as usize).saturating_sub(1)) {
        Some(txn) => txn.name.as_str().as_bytes(),
        None => &[],
    }
}

#[tactic(auto, using(crate::proofs::Verbatim::name_verbatim))]
fn class_name(catalogue: &Catalogue, class: ClassNo) -> &[u8]
    ensures value { result.now ≡ class_name catalogue.now class.0 }
    ensures verbatim { list_all is_verbatim result.now ≡ true }
{
    let place = class.0.saturating_sub(1);
    if place >= catalogue.classes() {
        return &[];
    }
    catalogue.class(ClassNo(place + 1)).name.as_str().as_bytes()
}

/// The name of a class, and `-` for undeclared transactions.
pub fn class_word(catalogue: &Catalogue, class: ClassNo) -> &[u8]
    ensures value { result.now ≡ class_word catalogue.now class.0 }
    ensures verbatim { list_all is_verbatim result.now ≡ true }
{
    if class.0 == 0 {
        b"-"
    } else {
        class_name(catalogue, class)
    }
}

/// The name of a fragment, by its number from 1; empty past the last.
#[tactic(auto, using(crate::proofs::Verbatim::name_verbatim))]
pub fn fragment_name(catalogue: &Catalogue, frag: FragNo) -> &[u8]
    ensures value { result.now ≡ fragment_name catalogue.now frag.0 }
    ensures verbatim { list_all is_verbatim result.now ≡ true }
{
    let place = frag.0.saturating_sub(1);
    if place >= catalogue.fragments() {
        return &[];
    }
    catalogue
        .fragment(FragNo(place + 1))
        .name
        .as_str()
        .as_bytes()
}
