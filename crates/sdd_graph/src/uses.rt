ghost use Rattle.std.specs.Prelude.{◌≡◌, ◌≤◌, ◌&&◌, length, IfOk};
ghost use Rattle.std.specs.List.{All, list_any, zip};
ghost use Rattle.sdd_catalog.specs.Catalogue.{writes};
ghost use Rattle.sdd_graph.specs.Edges.{IsClassOf};
ghost use Rattle.sdd_graph.specs.Graph.{write_sets_meet};
ghost use Rattle.sdd_graph.specs.Uses.{reads_of, class_uses};

use crate::class_uses::{ClassUses, class_uses};
use sdd_base::{ClassNo, MAX_CLASSES, NoMemory};
use sdd_catalog::Catalogue;
use std::alloc::Global;
use std::marker::Model;

/// A catalogue, with what each class reads and writes laid out for quick answers.
#[derive(Drop)]
pub(crate) struct Uses<'a> {
    catalogue: &'a Catalogue,
    classes: Vec<ClassUses>,
}

impl<'a> Model for Uses<'a> {
    ghost use Rattle.std.specs.Prelude.{◌≡◌};
    ghost use Rattle.sdd_catalog.specs.Catalogue as catalogues;
    ghost use Rattle.sdd_graph.specs.Uses.{all_uses};

    ghost Value = { catalogues.Catalogue };

    ghost view = { λ u. u.catalogue.now };

    ghost invariant = { λ u. u.classes.items ≡ all_uses u.catalogue.now };
}

impl<'a> Uses<'a> {
    /// Costs time in the fragments times the reads of each class, and memory for a flag for each class
    /// and fragment.
    pub(crate) fn of(alloc: Global, catalogue: &'a Catalogue) -> Result<Uses<'a>, NoMemory>
        ensures { IfOk result (λ uses. uses ≡ catalogue.now) }
    {
        catalogue.law_is_sound();
        let mut classes = Vec::new(alloc);
        for i in 1..catalogue.classes() + 1 {
            classes.push(class_uses(alloc, catalogue, ClassNo(i))?)?;
        }
        Ok(Uses { catalogue, classes })
    }

    /// How many classes there are.
    pub(crate) fn classes(&self) -> u32
        ensures count { result ≡ length self.now.classes }
        ensures few { result ≤ MAX_CLASSES }
    {
        self.catalogue.law_is_sound();
        self.catalogue.classes()
    }

    fn class(&self, class: u32) -> &ClassUses
        requires { IsClassOf self.now class }
        ensures { result.now ≡ class_uses self.now class }
    {
        &self.classes[class as usize - 1]
    }

    /// The fragments that the class reads, ascending.
    pub(crate) fn reads(&self, class: u32) -> &[u32]
        requires { IsClassOf self.now class }
        ensures list { result.now ≡ reads_of self.now class }
        ensures within { All (λ f. (1 ≤ f) × (f ≤ length self.now.fragments)) result.now }
    {
        self.class(class).reads.as_slice()
    }

    /// Whether the class writes the fragment.
    pub(crate) fn writes(&self, class: u32, frag: u32) -> bool
        requires class { IsClassOf self.now class }
        requires from { 1 ≤ frag }
        requires to { frag ≤ length self.now.fragments }
        ensures { result ≡ writes self.now class frag }
    {
        self.class(class).written.as_slice()[frag as usize - 1]
    }

    /// Whether both classes write some fragment. Costs time in the fragments.
    pub(crate) fn meet(&self, one: u32, other: u32) -> bool
        requires one { IsClassOf self.now one }
        requires other { IsClassOf self.now other }
        ensures { result ≡ write_sets_meet self.now one other }
    {
        have_common(
            self.class(one).written.as_slice(),
            self.class(other).written.as_slice(),
        )
    }
}

/// Whether both lists have a true at one place.
fn have_common(one: &[bool], other: &[bool]) -> bool
    ensures { result ≡ list_any (λ p. p.0 && p.1) (zip one.now other.now) }
{
    one.iter().zip(other).any(|(a, b)| *a && *b)
}
