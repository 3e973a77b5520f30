//! A tag, and the fields of its message after it.
ghost use Rattle.std.specs.Prelude.{◌≡◌, ◌++◌, ◌∷◌, OnOk};

use crate::spelled::Spelled;
use sdd_base::NoMemory;

/// Puts a tag and one field.
pub(crate) fn put_one<A: Spelled>(out: &mut Vec<u8>, tag: u8, a: &A) -> Result<(), NoMemory>
    ensures spelling { OnOk result (out.new.items ≡ out.old.items ++ (tag ∷ A.spelling a.now)) }
    ensures fits { OnOk result (A.fits a.now) }
{
    out.push(tag)?;
    a.put(out)
}

/// Puts a tag and two fields.
pub(crate) fn put_two<A: Spelled, B: Spelled>(
    out: &mut Vec<u8>,
    tag: u8,
    a: &A,
    b: &B,
) -> Result<(), NoMemory>
    ensures spelling { OnOk result (
        out.new.items
        ≡ out.old.items
        ++ (tag ∷ (A.spelling a.now ++ B.spelling b.now))) }
    ensures fits { OnOk result (A.fits a.now × B.fits b.now) }
{
    put_one(out, tag, a)?;
    b.put(out)
}

/// Puts a tag and three fields.
pub(crate) fn put_three<A: Spelled, B: Spelled, C: Spelled>(
    out: &mut Vec<u8>,
    tag: u8,
    a: &A,
    b: &B,
    c: &C,
) -> Result<(), NoMemory>
    ensures spelling { OnOk result (
        out.new.items
        ≡ out.old.items
        ++ (tag ∷ (A.spelling a.now ++ B.spelling b.now ++ C.spelling c.now))) }
    ensures fits { OnOk result (A.fits a.now × B.fits b.now × C.fits c.now) }
{
    put_two(out, tag, a, b)?;
    c.put(out)
}

/// Puts a tag and four fields.
pub(crate) fn put_four<A: Spelled, B: Spelled, C: Spelled, D: Spelled>(
    out: &mut Vec<u8>,
    tag: u8,
    a: &A,
    b: &B,
    c: &C,
    d: &D,
) -> Result<(), NoMemory>
    ensures spelling { OnOk result (
        out.new.items
        ≡ out.old.items
        ++ (tag ∷ (A.spelling a.now ++ B.spelling b.now ++ C.spelling c.now
        ++ D.spelling d.now))) }
    ensures fits { OnOk result (A.fits a.now × B.fits b.now × C.fits c.now × D.fits d.now) }
{
    put_three(out, tag, a, b, c)?;
    d.put(out)
}

/// Puts a tag and five fields.
pub(crate) fn put_five<A: Spelled, B: Spelled, C: Spelled, D: Spelled, E: Spelled>(
    out: &mut Vec<u8>,
    tag: u8,
    a: &A,
    b: &B,
    c: &C,
    d: &D,
    e: &E,
) -> Result<(), NoMemory>
    ensures spelling { OnOk result (
        out.new.items
        ≡ out.old.items
        ++ (tag ∷ (A.spelling a.now ++ B.spelling b.now ++ C.spelling c.now
        ++ D.spelling d.now ++ E.spelling e.now))) }
    ensures fits { OnOk result (A.fits a.now × B.fits b.now × C.fits c.now × D.fits d.now × E.fits e.now) }
{
    put_four(out, tag, a, b, c, d)?;
    e.put(out)
}
