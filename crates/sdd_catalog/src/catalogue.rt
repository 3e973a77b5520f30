ghost use Rattle.std.specs.Prelude.{ℕ, ◌≡◌, ◌≤◌, ◌<◌, ◌-◌, ◌^◌, ◌==◌, length, find, option_map, IfOk, IfErr};
ghost use Rattle.std.specs.List.{list_any};
ghost use Rattle.sdd_catalog.specs.Catalogue.{catalogue_of, parts_of, relation_at, fragment_at, class_at, IsOf, HoldsKey, fragment_of, has_copy, writes, lowest_copy, reads_at, numbers_to};
ghost use Rattle.sdd_catalog.specs.Cover.{Cover, ranges_for};
ghost use Rattle.sdd_catalog.specs.Naming.{AreNamed};
ghost use Rattle.sdd_catalog.specs.Numbers.{IsWhole};
ghost use Rattle.sdd_catalog.specs.Rules.{IsSoundCatalogue, IsValid, TellsFirst, faults_of};

use crate::fault::CatError;
use crate::first_fault::first_fault;
use crate::naming::{name_classes, name_fragments, name_relations};
use crate::parts::Parts;
use crate::ranges::{KeyRange, RangeTable, number_for, range_table};
use crate::resolve::{resolve_classes, resolve_fragments, resolve_relations};
use crate::resolved::{Class, Classes, Fragment, Fragments, Read, Relation, Relations};
use sdd_base::{ClassNo, DmNo, FragNo, MAX_DMS, NoMemory, Parcel, RelNo};
use std::alloc::Global;
use std::marker::Model;

/// A catalogue, which is that of valid parts, with numbers in place of their names.
#[derive(Drop)]
pub struct Catalogue {
    alloc: Global,
    tms: u32,
    dms: u32,
    relations: Relations,
    fragments: Fragments,
    classes: Classes,
    ranges: RangeTable,
}

impl Model for Catalogue {
    ghost use Rattle.sdd_catalog.specs.Catalogue as catalogues;
    ghost use Rattle.sdd_catalog.specs.Cover.{IsIndexed};

    ghost Value = { catalogues.Catalogue };

    ghost view = { λ c. record { tms = c.tms; dms = c.dms; relations = c.relations; fragments = c.fragments; classes = c.classes } };

    ghost invariant = { λ c. IsIndexed (record { tms = c.tms; dms = c.dms; relations = c.relations; fragments = c.fragments; classes = c.classes }) c.ranges };
}

impl Catalogue {
    /// The catalogue of the parts, or their first fault. The rules on form and length are the
    /// reader's; their faults never come from here.
    ///
    /// Costs time in the square of the relations, of the fragments, of the classes and of the reads
    /// of a class, and some steps for each fragment that a class reads or writes.
    #[tactic(auto, using(crate::proofs::RoundTrip::parts_back, crate::proofs::FirstFault::valid_without_fault))]
    pub fn build(alloc: Global, parts: &Parts) -> Result<Catalogue, CatError>
        ensures valid { IfOk result (λ _. IsValid parts.now) }
        ensures value { IfOk result (λ built. built ≡ catalogue_of parts.now) }
        ensures parts { IfOk result (λ built. parts_of built ≡ parts.now) }
        ensures fault { IfErr result (λ e. TellsFirst e (faults_of parts.now)) }
    {
        match first_fault(alloc, parts)? {
            Some(fault) => Err(CatError::Fault(fault)),
            None => Ok(resolve(alloc, parts)?),
        }
    }

    /// The parts of which it was built.
    pub fn parts(&self) -> Result<Parts, NoMemory>
        ensures { IfOk result (λ parts. parts ≡ parts_of self.now) }
    {
        let relations = self.relations.as_slice();
        let fragments = self.fragments.as_slice();
        Ok(Parts {
            tms: self.tms,
            dms: self.dms,
            relations: name_relations(self.alloc, relations)?,
            fragments: name_fragments(self.alloc, relations, fragments)?,
            classes: name_classes(self.alloc, fragments, self.classes.as_slice())?,
        })
    }

    /// What holds of every catalogue: it is that of its own parts, which are valid, what its
    /// numbers name is there, and its names are names. Takes no memory.
    #[tactic(auto, using(crate::proofs::Sound::sound_whole))]
    pub fn law_is_sound(&self)
        ensures sound { IsSoundCatalogue self.now }
        ensures whole { IsWhole self.now }
        ensures named { AreNamed self.now }
    {
        let _ = &self.tms;
    }

    /// How many transaction modules there are. Takes no memory.
    pub fn tms(&self) -> u32
        ensures { result ≡ self.now.tms }
    {
        self.tms
    }

    /// How many data modules there are. Takes no memory.
    pub fn dms(&self) -> u32
        ensures { result ≡ self.now.dms }
    {
        self.dms
    }

    /// How many relations there are. Takes no memory.
    pub fn relations(&self) -> u32
        ensures { result ≡ length self.now.relations }
    {
        self.relations.as_slice().len() as u32
    }

    /// How many fragments there are. Takes no memory.
    pub fn fragments(&self) -> u32
        ensures { result ≡ length self.now.fragments }
    {
        self.fragments.as_slice().len() as u32
    }

    /// How many classes there are. Takes no memory.
    pub fn classes(&self) -> u32
        ensures { result ≡ length self.now.classes }
    {
        self.classes.as_slice().len() as u32
    }

    /// The relation with the number. Takes no memory.
    #[tactic(auto, using(crate::proofs::Numbers::item_at))]
    pub fn relation(&self, rel: RelNo) -> &Relation
        requires from { 1 ≤ rel.0 }
        requires to { rel.0 ≤ length self.now.relations }
        ensures { result.now ≡ relation_at self.now rel.0 }
    {
        &self.relations.as_slice()[rel.0 as usize - 1]
    }

    /// The fragment with the number. Takes no memory.
    #[tactic(auto, using(crate::proofs::Numbers::item_at))]
    pub fn fragment(&self, frag: FragNo) -> &Fragment
        requires from { 1 ≤ frag.0 }
        requires to { frag.0 ≤ length self.now.fragments }
        ensures { result.now ≡ fragment_at self.now frag.0 }
    {
        &self.fragments.as_slice()[frag.0 as usize - 1]
    }

    /// The class with the number, which isn't 0. Takes no memory.
    #[tactic(auto, using(crate::proofs::Numbers::item_at))]
    pub fn class(&self, class: ClassNo) -> &Class
        requires from { 1 ≤ class.0 }
        requires to { class.0 ≤ length self.now.classes }
        ensures { result.now ≡ class_at self.now class.0 }
    {
        &self.classes.as_slice()[class.0 as usize - 1]
    }

    /// The fragment of the relation whose range holds the key: there is exactly one. Costs time in
    /// the logarithm of the relation's fragments. Takes no memory.
    pub fn fragment_of(&self, rel: RelNo, key: i64) -> FragNo
        requires from { 1 ≤ rel.0 }
        requires to { rel.0 ≤ length self.now.relations }
        ensures there { IsOf self.now rel.0 result.0 }
        ensures holds { HoldsKey self.now result.0 key }
        ensures only { (f : ℕ) → IsOf self.now rel.0 f → HoldsKey self.now f key → f ≡ result.0 }
        ensures number { result.0 ≡ fragment_of self.now rel.0 key }
    {
        self.law_is_sound();
        FragNo(number_for(self.ranges_of(rel), key))
    }

    /// The ranges of a relation, in order.
    fn ranges_of(&self, rel: RelNo) -> &[KeyRange]
        requires from { 1 ≤ rel.0 }
        requires to { rel.0 ≤ length self.now.relations }
        ensures cover { Cover result.now }
        ensures is { result.now ≡ ranges_for (parts_of self.now) (rel.0 - 1) }
    {
        self.ranges.as_slice()[rel.0 as usize - 1].as_slice()
    }

    /// Whether the module has a copy of the fragment. Takes no memory.
    pub fn has_copy(&self, dm: DmNo, frag: FragNo) -> bool
        requires from { 1 ≤ frag.0 }
        requires to { frag.0 ≤ length self.now.fragments }
        ensures { result ≡ has_copy self.now dm.0 frag.0 }
    {
        has_copy_at(self.fragment(frag).copies.as_slice(), u32::from(dm.0))
    }

    /// Whether the class writes the fragment. Class 0 may write every fragment. Takes no memory.
    pub fn writes(&self, class: ClassNo, frag: FragNo) -> bool
        requires class { class.0 ≤ length self.now.classes }
        ensures { result ≡ writes self.now class.0 frag.0 }
    {
        class.0 == 0 || has_fragment(self.class(class).writes.as_slice(), frag)
    }

    /// The module at which the class reads the fragment, or None exactly where it doesn't read it.
    /// Class 0 reads each fragment at the lowest module with a copy. Takes no memory.
    #[tactic(auto, using(crate::proofs::Sound::number_of_module))]
    pub fn reads_at(&self, class: ClassNo, frag: FragNo) -> Option<DmNo>
        requires class { class.0 ≤ length self.now.classes }
        requires from { 1 ≤ frag.0 }
        requires to { frag.0 ≤ length self.now.fragments }
        ensures { option_map (λ dm. dm.0) result ≡ reads_at self.now class.0 frag.0 }
    {
        if class.0 == 0 {
            self.lowest_copy(frag)
        } else {
            module_of_read(self.class(class).reads.as_slice(), frag)
        }
    }

    /// The lowest module with a copy of the fragment.
    #[tactic(auto, using(crate::proofs::Sound::lowest_is_few, crate::proofs::Sound::few_dms))]
    fn lowest_copy(&self, frag: FragNo) -> Option<DmNo>
        requires from { 1 ≤ frag.0 }
        requires to { frag.0 ≤ length self.now.fragments }
        ensures { option_map (λ dm. dm.0) result ≡ lowest_copy self.now frag.0 }
    {
        self.law_is_sound();
        match lowest_among(self.fragment(frag).copies.as_slice(), self.dms()) {
            Some(dm) => Some(DmNo(dm as u8)),
            None => None,
        }
    }
}

impl Parcel for Catalogue {
    fn copy(&self) -> Result<Self, NoMemory> {
        Ok(Catalogue {
            alloc: self.alloc,
            tms: self.tms,
            dms: self.dms,
            relations: self.relations.copy()?,
            fragments: self.fragments.copy()?,
            classes: self.classes.copy()?,
            ranges: self.ranges.copy()?,
        })
    }
}

#[tactic(auto, using(crate::proofs::RoundTrip::resolvable, crate::proofs::RoundTrip::have_numbers, crate::proofs::RoundTrip::at_modules, crate::proofs::RoundTrip::run_at_modules))]
fn resolve(alloc: Global, parts: &Parts) -> Result<Catalogue, NoMemory>
    requires { IsValid parts.now }
    ensures { IfOk result (λ built. built ≡ catalogue_of parts.now) }
{
    let relations = parts.relations.as_slice();
    let fragments = parts.fragments.as_slice();
    Ok(Catalogue {
        alloc,
        tms: parts.tms,
        dms: parts.dms,
        relations: resolve_relations(alloc, relations)?,
        fragments: resolve_fragments(alloc, relations, fragments)?,
        classes: resolve_classes(alloc, parts)?,
        ranges: range_table(alloc, relations, fragments)?,
    })
}

/// Whether one of the copies is at the module with this number.
fn has_copy_at(copies: &[DmNo], dm: u32) -> bool
    ensures { result ≡ list_any (λ d. d.0 == dm) copies.now }
{
    copies.iter().any(|copy| u32::from(copy.0) == dm)
}

fn has_fragment(frags: &[FragNo], frag: FragNo) -> bool
    ensures { result ≡ list_any (λ f. f.0 == frag.0) frags.now }
{
    frags.iter().any(|other| other.0 == frag.0)
}

/// The lowest number of a module among the copies.
fn lowest_among(copies: &[DmNo], dms: u32) -> Option<u32>
    requires { dms ≤ MAX_DMS }
    ensures { result ≡ find (λ dm. list_any (λ d. d.0 == dm) copies.now) (numbers_to dms) }
{
    (1..dms + 1).find(|dm| has_copy_at(copies, *dm))
}

/// The module of the first read of the fragment.
fn module_of_read(reads: &[Read], frag: FragNo) -> Option<DmNo>
    ensures { result ≡ option_map (λ r. r.at) (find (λ r. r.fragment.0 == frag.0) reads.now) }
{
    reads
        .iter()
        .find(|read| read.fragment.0 == frag.0)
        .map(|read| read.at)
}
