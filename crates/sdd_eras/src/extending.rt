ghost use Rattle.std.specs.Prelude.{◌≡◌, ◌++◌, [], IfOk, IfErr};
ghost use Rattle.sdd_lang.specs.All.{TellsFirst};
ghost use Rattle.sdd_eras.specs.AddedClasses.{faults_of_added_classes, with_added_classes, with_classes};

use crate::copying::with_copies;
use sdd_lang::{CatError, Catalogue, ClassPart, Listed, NoMemory, Parts};
use std::alloc::Global;

/// The catalogue with the classes after those that are there, or the first fault of these classes:
/// the rules on classes are continued, so their numbers go on, and a name that a class has is taken.
///
/// Costs time in the square of what there is, since it builds the catalogue anew.
pub fn extend(
    alloc: Global,
    catalogue: &Catalogue,
    classes: &[ClassPart],
) -> Result<Catalogue, CatError>
    ensures value { IfOk result (λ extended. extended ≡ with_added_classes classes.now catalogue.now) }
    ensures allowed { IfOk result (λ _. faults_of_added_classes catalogue.now classes.now ≡ []) }
    ensures fault { IfErr result (λ e. TellsFirst e (faults_of_added_classes catalogue.now classes.now)) }
{
    catalogue.law_is_sound();
    let parts = add_classes(catalogue.parts()?, classes)?;
    Catalogue::build(alloc, &parts)
}

/// The parts with the classes after those that are there.
fn add_classes(parts: Parts, classes: &[ClassPart]) -> Result<Parts, NoMemory>
    ensures { IfOk result (λ all. all ≡ with_classes (parts.classes ++ classes.now) parts) }
{
    let all = with_copies(parts.classes.into_vec(), classes)?;
    Ok(Parts {
        tms: parts.tms,
        dms: parts.dms,
        relations: parts.relations,
        fragments: parts.fragments,
        classes: Listed::from_vec(all),
    })
}
