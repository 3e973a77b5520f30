//! Sets of a catalogue's fragments.
ghost use Rattle.std.specs.Prelude.{◌≡◌, ◌≤◌, [], length};
ghost use Rattle.std.specs.Ordering.{nat_cmp};
ghost use Rattle.std.specs.BTreeSet.{insert_key};
ghost use Rattle.sdd_catalog.specs.Catalogue.{Catalogue as OfCatalogue};
ghost use Rattle.sdd_lang.specs.FragSets.{has, members};

use sdd_base::{FragNo, MAX_FRAGMENTS};
use sdd_catalog::Catalogue;
use std::marker::Model;

/// How many flags there are: one for each number up to that of the last fragment.
const FLAGS: usize = MAX_FRAGMENTS + 1;

/// A set of fragments: a flag for each number that a fragment may have, so that to add one and to
/// ask for one costs one look each. Takes no memory of the allocator's.
#[derive(Drop)]
pub(crate) struct FragSet {
    flags: [bool; FLAGS],
}

impl Model for FragSet {
    ghost use Rattle.std.specs.Prelude.{◌≡◌, Bool, List, length};

    ghost Value = { List Bool };

    ghost view = { λ s. s.flags };

    ghost invariant = { λ s. length s.flags ≡ 257 };
}

impl FragSet {
    pub(crate) fn new() -> Self
        ensures { (catalogue : OfCatalogue) → members catalogue result ≡ [] }
    {
        FragSet {
            flags: [false; FLAGS],
        }
    }

    pub(crate) fn add(&mut self, catalogue: &Catalogue, frag: FragNo)
        requires from { 1 ≤ frag.0 }
        requires to { frag.0 ≤ length catalogue.now.fragments }
        ensures { members catalogue.now self.new ≡ insert_key nat_cmp (members catalogue.now self.old) frag.0 }
    {
        catalogue.law_is_sound();
        self.flags[frag.0 as usize] = true;
    }

    pub(crate) fn has(&self, catalogue: &Catalogue, frag: FragNo) -> bool
        requires { frag.0 ≤ length catalogue.now.fragments }
        ensures { result ≡ has self.now frag.0 }
    {
        catalogue.law_is_sound();
        self.flags[frag.0 as usize]
    }
}
