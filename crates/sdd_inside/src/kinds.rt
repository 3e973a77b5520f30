//! What a message begins with: its kind, and where it has them its class and its time. A kind is put with
//! all that stands around it, in one piece.
ghost use Rattle.std.specs.Prelude.{◌≡◌, ◌++◌, ◌∷◌, codes, OnOk};
ghost use Rattle.sdd_inside.specs.Json.{quoted, member};
ghost use Rattle.sdd_inside.specs.Pieces.{kind_in, kind_before};
ghost use Rattle.sdd_inside.specs.Messages.{of_kind, at_time, of_class};

use crate::escape::put_verbatim;
use crate::names::class_word;
use crate::numbers::put_decimal;
use crate::pieces::put;
use crate::to_json::put_also;
use sdd_script::{Catalogue, ClassNo, NoMemory, Ts, Txn};

/// Puts the kind of a message.
#[tactic(auto, unfolding(crate::specs::Json::also))]
#[inline(always)]
pub(crate) fn put_kind(out: &mut Vec<u8>, text: &[u8]) -> Result<(), NoMemory>
    requires { text.now ≡ 44 ∷ member (codes "kind") (quoted (kind_in text.now)) }
    ensures { OnOk result (out.new.items ≡ out.old.items ++ of_kind (kind_in text.now)) }
{
    put(out, text)
}

/// Puts the kind and the time of a message without a class.
#[inline(always)]
pub(crate) fn put_time(out: &mut Vec<u8>, text: &[u8], time: Ts) -> Result<(), NoMemory>
    requires { text.now ≡ 44 ∷ member (codes "kind") (quoted (kind_in text.now)) }
    ensures { OnOk result (out.new.items ≡ out.old.items ++ at_time (kind_in text.now) time) }
{
    put_kind(out, text)?;
    put_also(out, b",\"time\":", time.0)
}

/// Puts the kind, the class and the time of a message: what stands before the name of the class is one
/// piece.
#[tactic(auto, using(crate::proofs::Members::class_put))]
#[inline(always)]
pub(crate) fn put_class(
    out: &mut Vec<u8>,
    before: &[u8],
    catalogue: &Catalogue,
    txns: &[Txn],
    class: ClassNo,
    time: Ts,
) -> Result<(), NoMemory>
    requires { before.now
        ≡ 44 ∷ member (codes "kind") (quoted (kind_before before.now)) ++ codes ",\"class\":\"" }
    ensures { OnOk result (
        out.new.items
        ≡ out.old.items ++ of_class (kind_before before.now) catalogue.now txns.now class time) }
{
    put(out, before)?;
    put_verbatim(out, class_word(catalogue, class))?;
    put(out, b"\",\"time\":")?;
    put_decimal(out, time.0)
}
