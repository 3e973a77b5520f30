//! The catalogues that follow each other with each class list.
ghost use Rattle.std.specs.Prelude.{◌≡◌, [], length, IfOk};
ghost use Rattle.sdd_script.specs.All.{AreValidLists, eras, retired, whole};
ghost use Rattle.sdd_eras.specs.AddedClasses.{faults_of_added_classes, with_added_classes};
ghost use Rattle.sdd_lists.specs.InForce.{numbered};

use sdd_eras::{extend, retire};
use sdd_script::{CatError, Catalogue, ClassPart, ClassParts, NoMemory, Parcel};
use std::alloc::Global;
use std::mem;

/// The catalogue with these classes after its own, where they break no rule there.
fn with_added_classes(
    alloc: Global,
    catalogue: Catalogue,
    classes: &[ClassPart],
) -> Result<Catalogue, NoMemory>
    requires { faults_of_added_classes catalogue classes.now ≡ [] }
    ensures { IfOk result (λ all. all ≡ with_added_classes classes.now catalogue) }
{
    match extend(alloc, &catalogue, classes) {
        Ok(all) => Ok(all),
        Err(CatError::Fault(_)) => unreachable!(),
        Err(CatError::NoMemory) => Err(NoMemory),
    }
}

/// What is in force after a catalogue with these classes: those that it has retire.
fn next_era(alloc: Global, last: &Catalogue, classes: &[ClassPart]) -> Result<Catalogue, NoMemory>
    requires { faults_of_added_classes (retired (length last.now.classes) last.now) classes.now ≡ [] }
    ensures { IfOk result (λ next. next ≡ with_added_classes classes.now (retired (length last.now.classes) last.now)) }
{
    let retired = retire(alloc, last, last.classes())?;
    with_added_classes(alloc, retired, classes)
}

/// The catalogues in force, one after the other.
pub(crate) fn eras_of(
    alloc: Global,
    catalogue: &Catalogue,
    lists: &[ClassParts],
) -> Result<Vec<Catalogue>, NoMemory>
    requires { AreValidLists catalogue.now lists.now }
    ensures { IfOk result (λ all. all.items ≡ eras catalogue.now (numbered catalogue.now lists.now)) }
{
    let mut before = Vec::new(alloc);
    let mut last = catalogue.copy()?;
    'lists: for classes in lists {
        let next = next_era(alloc, &last, classes.as_slice())?;
        before.push(mem::replace(&mut last, next))?;
    }
    before.push(last)?;
    Ok(before)
}

/// The catalogue with the classes of all lists.
pub(crate) fn whole_of(
    alloc: Global,
    catalogue: &Catalogue,
    lists: &[ClassParts],
) -> Result<Catalogue, NoMemory>
    requires { AreValidLists catalogue.now lists.now }
    ensures { IfOk result (λ all. all ≡ whole catalogue.now (numbered catalogue.now lists.now)) }
{
    let mut all = catalogue.copy()?;
    'lists: for classes in lists {
        all = with_added_classes(alloc, all, classes.as_slice())?;
    }
    Ok(all)
}
