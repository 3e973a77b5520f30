ghost use Rattle.std.specs.Prelude.{◌≡◌, ◌<◌, ◌-◌, ◌^◌, ℕ, List, length, find, bytes_eq, IfOk, IfSome};
ghost use Rattle.std.specs.HashMap.{get};
ghost use Rattle.std.specs.Option.{option_copied};
ghost use Rattle.sdd_catalog.specs.Catalogue.{fragment_names};
ghost use Rattle.sdd_catalog.specs.Names.{number_of, place_of};
ghost use Rattle.sdd_catalog.specs.Rules.{has_name};

use crate::named::copy_name;
use crate::parts::{FragmentPart, Parts};
use sdd_base::{Name, NoMemory};
use std::alloc::Global;
use std::collections::HashMap;
use std::marker::Model;

/// The parts of a catalogue, with an index of the fragments by name. Of fragments with one name the
/// first is found.
#[derive(Drop)]
pub(crate) struct IndexedParts<'a> {
    parts: &'a Parts,
    places: HashMap<Name, usize>,
}

impl<'a> Model for IndexedParts<'a> {
    ghost use Rattle.std.specs.Prelude.{ℕ, ◌≡◌, List, bytes_eq};
    ghost use Rattle.std.specs.HashMap.{get};
    ghost use Rattle.sdd_catalog.specs.Catalogue.{fragment_names};
    ghost use Rattle.sdd_catalog.specs.Names.{place_of};
    ghost use Rattle.sdd_catalog.specs.declared.parts.Parts.{Parts as AllParts};

    ghost Value = { AllParts };

    ghost view = { λ i. i.parts.now };

    ghost invariant = { λ i. (name : List ℕ) → get bytes_eq i.places name ≡ place_of name (fragment_names i.parts.now.fragments) };
}

/// The place of the first fragment of each name.
fn places_by_name(
    alloc: Global,
    fragments: &[FragmentPart],
) -> Result<HashMap<Name, usize>, NoMemory>
    ensures { IfOk result (λ made. (name : List ℕ)
        → get bytes_eq made name ≡ place_of name (fragment_names fragments.now)) }
{
    let mut made = HashMap::new(alloc);
    let mut place = fragments.len();
    while place > 0 {
        place -= 1;
        let name = copy_name(&fragments[place].name)?;
        made.insert(name, place)?;
    }
    Ok(made)
}

impl<'a> IndexedParts<'a> {
    /// Costs about a step for each fragment, and memory for their names.
    pub(crate) fn of(alloc: Global, parts: &'a Parts) -> Result<IndexedParts<'a>, NoMemory>
        ensures { IfOk result (λ indexed. indexed ≡ parts.now) }
    {
        let places = places_by_name(alloc, parts.fragments.as_slice())?;
        Ok(IndexedParts { parts, places })
    }

    /// The parts.
    pub(crate) fn parts(&self) -> &Parts
        ensures { result.now ≡ self.now }
    {
        self.parts
    }

    /// The place of the first fragment with the name, counted from 0.
    pub(crate) fn place_of(&self, name: &Name) -> Option<usize>
        ensures value { result ≡ place_of name.now (fragment_names self.now.fragments) }
        ensures within { IfSome result (λ place. place < length self.now.fragments) }
    {
        let _ = &self.parts;
        self.places.get(name).copied()
    }

    /// The first fragment with the name.
    pub(crate) fn fragment(&self, name: &Name) -> Option<&FragmentPart>
        ensures { option_copied result ≡ find (λ f. bytes_eq name.now f.name) self.now.fragments }
    {
        match self.place_of(name) {
            Some(place) => Some(&self.parts().fragments.as_slice()[place]),
            None => None,
        }
    }

    /// Whether one of the fragments has the name.
    pub(crate) fn has_fragment(&self, name: &Name) -> bool
        ensures { result ≡ has_name (fragment_names self.now.fragments) name.now }
    {
        self.place_of(name).is_some()
    }

    /// The number of the first fragment with the name, counted from 1, or 0 where there is none.
    pub(crate) fn number_of(&self, name: &Name) -> u32
        requires { length self.now.fragments < 2 ^ 32 - 1 }
        ensures { result ≡ number_of name.now (fragment_names self.now.fragments) }
    {
        match self.place_of(name) {
            Some(place) => place as u32 + 1,
            None => 0,
        }
    }
}
