ghost use Rattle.std.specs.Prelude.{◌≡◌, ◌↔◌, IfOk, IfSome, IsSome, IsTrue, ◌==◌, Some};
ghost use Rattle.std.specs.List.{list_all};
ghost use Rattle.std.specs.Ordering.{nat_cmp};
ghost use Rattle.std.specs.Cmp.{partial_equiv_from_equiv};
ghost use Rattle.std.specs.Cmp.Lexicographic.{pointwise, slice_cmp, bytes_decides, texts_po, texts_ties};
ghost use Rattle.std.specs.Hash as fed;
ghost use Rattle.std.proofs.Common.{refl, rules};
ghost use Rattle.std.specs.Cmp.Rules.{hashing};
ghost use Rattle.std.proofs.lemmas.Cmp.{nat_list_eq_equiv, nat_list_cmp_total};
ghost use Rattle.sdd_base.specs.Name.{IsName, is_name, begins_with_letter, is_name_byte, is_keyword};

use crate::exact::Exact;
use crate::limits::MAX_NAME_BYTES;
use crate::no_memory::NoMemory;
use crate::parcel::Parcel;
use std::alloc::Global;
use std::cmp::Ordering;
use std::hash::{Hash, Hasher};
use std::marker::Model;

/// A name in the files: 1 to 32 letters a to z and A to Z, digits and `_`, of which the first is a
/// letter, and none of the keywords `from`, `where`, `and`, `set`. Contracts see its bytes.
#[derive(Drop)]
pub struct Name {
    text: String,
}

impl Model for Name {
    ghost use Rattle.std.specs.Prelude.{List, ℕ, string_bytes};
    ghost use Rattle.sdd_base.specs.Name.{IsName};

    ghost Value = { List ℕ };

    ghost view = { λ n. string_bytes n.text };

    ghost invariant = { λ n. IsName (string_bytes n.text) };
}

impl Name {
    /// The name, or None exactly where the text isn't one.
    pub fn new(alloc: Global, text: &str) -> Result<Option<Name>, NoMemory>
        ensures which { IfOk result (λ found. IsSome found ↔ IsName text.now) }
        ensures value { IfOk result (λ found. IfSome found (λ n. n ≡ text.now)) }
    {
        if !spells_name(text) {
            return Ok(None);
        }
        Ok(Some(Name {
            text: text.to_string(alloc)?,
        }))
    }

    /// Its text, which is spelled as a name. Takes no memory.
    pub fn as_str(&self) -> &str
        ensures value { result.now ≡ self.now }
        ensures name { IsName result.now }
    {
        self.text.as_str()
    }
}

fn spells_name(text: &str) -> bool
    ensures { result ≡ is_name text.now }
{
    starts_as_name(text.as_bytes())
        && text.len() <= MAX_NAME_BYTES
        && all_name_bytes(text.as_bytes())
        && !spells_keyword(text)
}

fn starts_as_name(bytes: &[u8]) -> bool
    ensures { result ≡ begins_with_letter bytes.now }
{
    match bytes {
        [first, ..] => first.is_ascii_alphabetic(),
        [] => false,
    }
}

fn all_name_bytes(bytes: &[u8]) -> bool
    ensures { result ≡ list_all is_name_byte bytes.now }
{
    bytes.iter().all(|byte| is_part(*byte))
}

fn is_part(byte: u8) -> bool
    ensures { result ≡ is_name_byte byte }
{
    byte.is_ascii_alphanumeric() || byte == b'_'
}

fn spells_keyword(text: &str) -> bool
    ensures { result ≡ is_keyword text.now }
{
    text == "from" || text == "where" || text == "and" || text == "set"
}

impl PartialEq for Name {
    ghost eq = { pointwise ◌==◌ };

    ghost laws = { partial_equiv_from_equiv nat_list_eq_equiv };

    fn eq(&self, other: &Self) -> bool {
        self.text == other.text
    }
}

impl Eq for Name {
    ghost laws = { nat_list_eq_equiv };
}

impl PartialOrd for Name {
    ghost partial_cmp = { λ x y. Some (slice_cmp nat_cmp x y) };

    ghost laws = { texts_po };

    fn partial_cmp(&self, other: &Self) -> Option<Ordering> {
        Some(self.cmp(other))
    }
}

impl Ord for Name {
    ghost cmp = { slice_cmp nat_cmp };

    ghost total = { nat_list_cmp_total };

    ghost matches_partial_cmp = { λ x y. refl };

    ghost matches_eq = { texts_ties };

    fn cmp(&self, other: &Self) -> Ordering {
        self.text.cmp(&other.text)
    }
}

impl Hash for Name {
    ghost hash_input = { λ s. fed.str s };

    ghost respects_eq = { Prim.search (hashing, rules) };

    fn hash<H: Hasher>(&self, state: &mut H) {
        self.text.hash(state);
    }
}

impl Exact for Name {
    ghost exact = { bytes_decides };
}

impl Parcel for Name {
    fn copy(&self) -> Result<Self, NoMemory> {
        Ok(Name {
            text: self.text.clone()?,
        })
    }
}
