//! What a line tells, as JSON: values, lists of them, and members of objects.
ghost use Rattle.std.specs.Prelude.{ℕ, List, ◌≡◌, ◌++◌, ◌∷◌, [], codes, flat_map, MatchOption, OnOk};
ghost use Rattle.std.specs.Fmt.{decimal};
ghost use Rattle.sdd_script.specs.All.{Catalogue as Names, Txn as Named};
ghost use Rattle.sdd_inside.specs.Json.{separated, further, array, triple, member, also, unless_empty, if_true, unless_zero};
ghost use Rattle.sdd_inside.specs.Pieces.{name_in, list_name_in, flag_name_in};

use crate::numbers::put_decimal;
use crate::pieces::put;
use sdd_script::{Catalogue, Listed, NoMemory, Txn};

/// What can stand in a line.
pub(crate) trait ToJson: Sized {
    /// Its JSON, with the names of the catalogue and of the transactions.
    ghost json: { Names → List Named → Self → List ℕ };

    /// Puts its JSON.
    fn tell(&self, out: &mut Vec<u8>, catalogue: &Catalogue, txns: &[Txn]) -> Result<(), NoMemory>
        ensures { OnOk result (out.new.items ≡ out.old.items ++ json catalogue.now txns.now self.now) };
}

/// Puts a comma and a value.
#[inline(always)]
pub(crate) fn tell_further<T: ToJson>(
    out: &mut Vec<u8>,
    item: &T,
    catalogue: &Catalogue,
    txns: &[Txn],
) -> Result<(), NoMemory>
    ensures { OnOk result (out.new.items ≡ out.old.items ++ further (T.json catalogue.now txns.now) item.now) }
{
    put(out, b",")?;
    item.tell(out, catalogue, txns)
}

#[tactic(auto, using(crate::proofs::Loops::written))]
fn tell_rest<T: ToJson>(
    out: &mut Vec<u8>,
    items: &[T],
    catalogue: &Catalogue,
    txns: &[Txn],
) -> Result<(), NoMemory>
    ensures { OnOk result (
        out.new.items
        ≡ out.old.items ++ flat_map (further (T.json catalogue.now txns.now)) items.now) }
{
    'items: for item in items {
        tell_further(out, item, catalogue, txns)?;
    }
    Ok(())
}

/// The first item and the others.
pub(crate) fn split_head<T>(items: &[T]) -> Option<(&T, &[T])>
    ensures { MatchOption result (items.now ≡ []) (λ p. items.now ≡ p.0.now ∷ p.1.now) }
{
    match items {
        [first, rest @ ..] => Some((first, rest)),
        [] => None,
    }
}

fn tell_items<T: ToJson>(
    out: &mut Vec<u8>,
    items: &[T],
    catalogue: &Catalogue,
    txns: &[Txn],
) -> Result<(), NoMemory>
    ensures { OnOk result (out.new.items ≡ out.old.items ++ separated (T.json catalogue.now txns.now) items.now) }
{
    match split_head(items) {
        Some((first, rest)) => {
            first.tell(out, catalogue, txns)?;
            tell_rest(out, rest, catalogue, txns)
        }
        None => Ok(()),
    }
}

/// Puts a list.
pub(crate) fn tell_array<T: ToJson>(
    out: &mut Vec<u8>,
    items: &[T],
    catalogue: &Catalogue,
    txns: &[Txn],
) -> Result<(), NoMemory>
    ensures { OnOk result (out.new.items ≡ out.old.items ++ array (T.json catalogue.now txns.now) items.now) }
{
    put(out, b"[")?;
    tell_items(out, items, catalogue, txns)?;
    put(out, b"]")
}

/// Puts the first two values of a longer list.
#[inline(always)]
pub(crate) fn tell_two<A: ToJson, B: ToJson>(
    out: &mut Vec<u8>,
    a: &A,
    b: &B,
    catalogue: &Catalogue,
    txns: &[Txn],
) -> Result<(), NoMemory>
    ensures { OnOk result (
        out.new.items
        ≡ out.old.items
        ++ (91 ∷ (A.json catalogue.now txns.now a.now
        ++ 44 ∷ (B.json catalogue.now txns.now b.now ++ 44 ∷ [])))) }
{
    put(out, b"[")?;
    a.tell(out, catalogue, txns)?;
    tell_further(out, b, catalogue, txns)?;
    put(out, b",")
}

/// Puts a list of three values.
#[inline(always)]
pub(crate) fn tell_triple<A: ToJson, B: ToJson, C: ToJson>(
    out: &mut Vec<u8>,
    a: &A,
    b: &B,
    c: &C,
    catalogue: &Catalogue,
    txns: &[Txn],
) -> Result<(), NoMemory>
    ensures { OnOk result (
        out.new.items
        ≡ out.old.items
        ++ triple (A.json catalogue.now txns.now a.now) (B.json catalogue.now txns.now b.now)
        (C.json catalogue.now txns.now c.now)) }
{
    tell_two(out, a, b, catalogue, txns)?;
    c.tell(out, catalogue, txns)?;
    put(out, b"]")
}

// A name is put with all that stands around it, as `,"time":`, which is called the key: so it is one
// piece, and not three.

/// Puts the beginning of an object and the name of its first member.
#[inline(always)]
fn put_first(out: &mut Vec<u8>, key: &[u8]) -> Result<(), NoMemory>
    requires { key.now ≡ 123 ∷ member (name_in key.now) [] }
    ensures { OnOk result (out.new.items ≡ out.old.items ++ 123 ∷ member (name_in key.now) []) }
{
    put(out, key)
}

/// Puts the beginning of an object and its first member.
#[tactic(auto, using(crate::proofs::Members::first_put))]
#[inline(always)]
pub(crate) fn tell_first<T: ToJson>(
    out: &mut Vec<u8>,
    key: &[u8],
    value: &T,
    catalogue: &Catalogue,
    txns: &[Txn],
) -> Result<(), NoMemory>
    requires { key.now ≡ 123 ∷ member (name_in key.now) [] }
    ensures { OnOk result (
        out.new.items
        ≡ out.old.items ++ 123 ∷ member (name_in key.now) (T.json catalogue.now txns.now value.now)) }
{
    put_first(out, key)?;
    value.tell(out, catalogue, txns)
}

/// Puts the beginning of an object and its first member, which is a number.
#[tactic(auto, using(crate::proofs::Members::first_put))]
#[inline(always)]
pub(crate) fn put_opening(out: &mut Vec<u8>, key: &[u8], number: u64) -> Result<(), NoMemory>
    requires { key.now ≡ 123 ∷ member (name_in key.now) [] }
    ensures { OnOk result (out.new.items ≡ out.old.items ++ 123 ∷ member (name_in key.now) (decimal number)) }
{
    put_first(out, key)?;
    put_decimal(out, number)
}

/// Puts the name of a further member.
#[tactic(auto, unfolding(crate::specs::Json::also))]
#[inline(always)]
pub(crate) fn put_name(out: &mut Vec<u8>, key: &[u8]) -> Result<(), NoMemory>
    requires { key.now ≡ 44 ∷ member (name_in key.now) [] }
    ensures { OnOk result (out.new.items ≡ out.old.items ++ also (name_in key.now) []) }
{
    put(out, key)
}

/// Puts a further member.
#[tactic(auto, using(crate::proofs::Members::member_put))]
#[inline(always)]
pub(crate) fn tell_also<T: ToJson>(
    out: &mut Vec<u8>,
    key: &[u8],
    value: &T,
    catalogue: &Catalogue,
    txns: &[Txn],
) -> Result<(), NoMemory>
    requires { key.now ≡ 44 ∷ member (name_in key.now) [] }
    ensures { OnOk result (
        out.new.items
        ≡ out.old.items ++ also (name_in key.now) (T.json catalogue.now txns.now value.now)) }
{
    put_name(out, key)?;
    value.tell(out, catalogue, txns)
}

/// Puts a further member that is a list.
#[tactic(auto, using(crate::proofs::Members::list_put))]
#[inline(always)]
pub(crate) fn tell_list<T: ToJson>(
    out: &mut Vec<u8>,
    key: &[u8],
    items: &[T],
    catalogue: &Catalogue,
    txns: &[Txn],
) -> Result<(), NoMemory>
    requires { key.now ≡ 44 ∷ member (list_name_in key.now) (91 ∷ []) }
    ensures { OnOk result (
        out.new.items
        ≡ out.old.items ++ also (list_name_in key.now) (array (T.json catalogue.now txns.now) items.now)) }
{
    put(out, key)?;
    tell_items(out, items, catalogue, txns)?;
    put(out, b"]")
}

/// Puts a further member that is a list, and nothing where the list is empty.
#[tactic(auto, using(crate::proofs::Members::none_put, crate::proofs::Members::some_put))]
#[inline(always)]
pub(crate) fn tell_some<T: ToJson>(
    out: &mut Vec<u8>,
    key: &[u8],
    items: &Listed<T>,
    catalogue: &Catalogue,
    txns: &[Txn],
) -> Result<(), NoMemory>
    requires { key.now ≡ 44 ∷ member (list_name_in key.now) (91 ∷ []) }
    ensures { OnOk result (
        out.new.items
        ≡ out.old.items ++ unless_empty (list_name_in key.now) (T.json catalogue.now txns.now) items.now) }
{
    let items = items.as_slice();
    if items.is_empty() {
        return Ok(());
    }
    tell_list(out, key, items, catalogue, txns)
}

/// Puts a further member where the answer is yes.
#[tactic(auto, unfolding(crate::specs::Json::also))]
#[inline(always)]
pub(crate) fn put_if(out: &mut Vec<u8>, text: &[u8], holds: bool) -> Result<(), NoMemory>
    requires { text.now ≡ 44 ∷ member (flag_name_in text.now) (codes "true") }
    ensures { OnOk result (out.new.items ≡ out.old.items ++ if_true (flag_name_in text.now) holds) }
{
    if holds { put(out, text) } else { Ok(()) }
}

/// Puts a further member that is a number.
#[tactic(auto, using(crate::proofs::Members::member_put))]
#[inline(always)]
pub(crate) fn put_also(out: &mut Vec<u8>, key: &[u8], number: u64) -> Result<(), NoMemory>
    requires { key.now ≡ 44 ∷ member (name_in key.now) [] }
    ensures { OnOk result (out.new.items ≡ out.old.items ++ also (name_in key.now) (decimal number)) }
{
    put_name(out, key)?;
    put_decimal(out, number)
}

/// Puts a further member that is a number, and nothing where it is 0.
#[inline(always)]
pub(crate) fn put_positive(out: &mut Vec<u8>, key: &[u8], number: u64) -> Result<(), NoMemory>
    requires { key.now ≡ 44 ∷ member (name_in key.now) [] }
    ensures { OnOk result (out.new.items ≡ out.old.items ++ unless_zero (name_in key.now) number) }
{
    if number == 0 {
        return Ok(());
    }
    put_also(out, key, number)
}
