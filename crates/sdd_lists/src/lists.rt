//! The catalogues of a workload, as a run uses them.
ghost use Rattle.std.specs.Prelude.{◌≡◌, IfOk};
ghost use Rattle.sdd_lists.specs.InForce.{eras_in, whole_in};
ghost use Rattle.sdd_script.specs.All.{IsValid};

use crate::following::{eras_of, whole_of};
use sdd_script::{Catalogue, NoMemory, Workload};
use std::alloc::Global;
use std::marker::Model;
use std::slice;

/// The catalogues that the lists of a workload put in force, one after the other, and the one with the
/// classes of all lists.
#[derive(Drop)]
pub struct Lists<'a> {
    catalogue: &'a Catalogue,
    /// None where there are no lists: then both are the catalogue alone.
    made: Option<Made>,
}

/// Catalogues that are made where there are lists.
#[derive(Drop)]
struct Made {
    eras: Vec<Catalogue>,
    whole: Catalogue,
}

impl<'a> Model for Lists<'a> {
    ghost use Rattle.std.specs.Prelude.{[], ◌∷◌};
    ghost use Rattle.std.specs.Option.{option_map_or};
    ghost use Rattle.sdd_lists.specs.InForce.{Catalogues};

    ghost Value = { Catalogues };

    ghost view = { λ l. record {
      eras = option_map_or (λ m. m.eras.items) l.made (l.catalogue.now ∷ []);
      whole = option_map_or (λ m. m.whole) l.made l.catalogue.now;
    } };
}

/// The catalogues of a workload that the catalogue allows.
///
/// Costs nothing without lists, and else time in the square of the catalogue for each list.
pub fn lists_of<'a>(
    alloc: Global,
    catalogue: &'a Catalogue,
    work: &Workload,
) -> Result<Lists<'a>, NoMemory>
    requires { IsValid catalogue.now work.now }
    ensures eras { IfOk result (λ lists. lists.eras ≡ eras_in catalogue.now work.now) }
    ensures whole { IfOk result (λ lists. lists.whole ≡ whole_in catalogue.now work.now) }
{
    match work.lists.as_slice() {
        [] => Ok(Lists {
            catalogue,
            made: None,
        }),
        lists => Ok(Lists {
            catalogue,
            made: Some(Made {
                eras: eras_of(alloc, catalogue, lists)?,
                whole: whole_of(alloc, catalogue, lists)?,
            }),
        }),
    }
}

impl<'a> Lists<'a> {
    /// The catalogues in force, one after the other. Takes no memory.
    pub fn eras(&self) -> &[Catalogue]
        ensures { result.now ≡ self.now.eras }
    {
        match &self.made {
            None => slice::from_ref(self.catalogue),
            Some(made) => made.eras.as_slice(),
        }
    }

    /// The catalogue with the classes of all lists. Takes no memory.
    pub fn whole(&self) -> &Catalogue
        ensures { result.now ≡ self.now.whole }
    {
        match &self.made {
            None => self.catalogue,
            Some(made) => &made.whole,
        }
    }
}
