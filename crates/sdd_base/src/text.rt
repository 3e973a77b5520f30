ghost use Rattle.std.specs.Prelude.{◌≡◌, ◌↔◌, IfOk, IfSome, IsSome, ◌==◌, Some};
ghost use Rattle.std.specs.Ordering.{nat_cmp};
ghost use Rattle.std.specs.Cmp.{partial_equiv_from_equiv};
ghost use Rattle.std.specs.Cmp.Lexicographic.{pointwise, slice_cmp, bytes_decides, texts_po, texts_ties};
ghost use Rattle.std.specs.Hash as fed;
ghost use Rattle.std.proofs.Common.{refl, rules};
ghost use Rattle.std.specs.Cmp.Rules.{hashing};
ghost use Rattle.std.proofs.lemmas.Cmp.{nat_list_eq_equiv, nat_list_cmp_total};
ghost use Rattle.sdd_base.specs.Text.{IsText};

use crate::exact::Exact;
use crate::limits::MAX_TEXT_BYTES;
use crate::no_memory::NoMemory;
use crate::parcel::Parcel;
use std::alloc::Global;
use std::cmp::Ordering;
use std::hash::{Hash, Hasher};
use std::marker::Model;

/// A text of a column: at most 255 bytes of UTF-8, none of them a newline. Contracts see its bytes,
/// by which texts are ordered.
#[derive(Drop)]
pub struct Text {
    text: String,
}

impl Model for Text {
    ghost use Rattle.std.specs.Prelude.{List, ℕ, string_bytes};
    ghost use Rattle.sdd_base.specs.Text.{IsText};

    ghost Value = { List ℕ };

    ghost view = { λ t. string_bytes t.text };

    ghost invariant = { λ t. IsText (string_bytes t.text) };
}

impl Text {
    /// The text, or None exactly where it has more than 255 bytes or holds a newline.
    pub fn new(alloc: Global, text: &str) -> Result<Option<Text>, NoMemory>
        ensures which { IfOk result (λ found. IsSome found ↔ IsText text.now) }
        ensures value { IfOk result (λ found. IfSome found (λ t. t ≡ text.now)) }
    {
        if text.len() > MAX_TEXT_BYTES || text.as_bytes().contains(&b'\n') {
            return Ok(None);
        }
        Ok(Some(Text {
            text: text.to_string(alloc)?,
        }))
    }

    /// Its text. Takes no memory.
    pub fn as_str(&self) -> &str
        ensures value { result.now ≡ self.now }
        ensures text { IsText result.now }
    {
        self.text.as_str()
    }
}

impl PartialEq for Text {
    ghost eq = { pointwise ◌==◌ };

    ghost laws = { partial_equiv_from_equiv nat_list_eq_equiv };

    fn eq(&self, other: &Self) -> bool {
        self.text == other.text
    }
}

impl Eq for Text {
    ghost laws = { nat_list_eq_equiv };
}

impl PartialOrd for Text {
    ghost partial_cmp = { λ x y. Some (slice_cmp nat_cmp x y) };

    ghost laws = { texts_po };

    fn partial_cmp(&self, other: &Self) -> Option<Ordering> {
        Some(self.cmp(other))
    }
}

impl Ord for Text {
    ghost cmp = { slice_cmp nat_cmp };

    ghost total = { nat_list_cmp_total };

    ghost matches_partial_cmp = { λ x y. refl };

    ghost matches_eq = { texts_ties };

    fn cmp(&self, other: &Self) -> Ordering {
        self.text.cmp(&other.text)
    }
}

impl Hash for Text {
    ghost hash_input = { λ s. fed.str s };

    ghost respects_eq = { Prim.search (hashing, rules) };

    fn hash<H: Hasher>(&self, state: &mut H) {
        self.text.hash(state);
    }
}

impl Exact for Text {
    ghost exact = { bytes_decides };
}

impl Parcel for Text {
    fn copy(&self) -> Result<Self, NoMemory> {
        Ok(Text {
            text: self.text.clone()?,
        })
    }
}
