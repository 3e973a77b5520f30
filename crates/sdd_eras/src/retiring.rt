ghost use Rattle.std.specs.Prelude.{◌≡◌, ◌≤◌, length, map, IfOk};
ghost use Rattle.sdd_lang.specs.All.{IsValid, catalogue_of, retired};
ghost use Rattle.sdd_eras.specs.AddedClasses.{with_classes};
ghost use Rattle.sdd_eras.specs.Retired.{emptied_part, retired_parts};

use crate::copying::with_copies;
use sdd_lang::{CatError, Catalogue, ClassPart, Listed, NoMemory, Parcel, Parts};
use std::alloc::Global;

/// The catalogue with classes 1 to `upto` reading and writing nothing; their numbers, names and
/// modules stay.
///
/// Costs time in the square of what there is, since it builds the catalogue anew.
pub fn retire(alloc: Global, catalogue: &Catalogue, upto: u32) -> Result<Catalogue, NoMemory>
    requires { upto ≤ length catalogue.now.classes }
    ensures { IfOk result (λ made. made ≡ retired upto catalogue.now) }
{
    catalogue.law_is_sound();
    let parts = empty_first(alloc, catalogue.parts()?, upto as usize)?;
    build_valid(alloc, &parts)
}

/// The catalogue of parts without a fault.
fn build_valid(alloc: Global, parts: &Parts) -> Result<Catalogue, NoMemory>
    requires { IsValid parts.now }
    ensures { IfOk result (λ built. built ≡ catalogue_of parts.now) }
{
    match Catalogue::build(alloc, parts) {
        Ok(built) => Ok(built),
        Err(CatError::Fault(_)) => unreachable!(),
        Err(CatError::NoMemory) => Err(NoMemory),
    }
}

/// The parts with the first `upto` classes reading and writing nothing.
fn empty_first(alloc: Global, parts: Parts, upto: usize) -> Result<Parts, NoMemory>
    requires { upto ≤ length parts.classes }
    ensures { IfOk result (λ all. all ≡ with_classes (retired_parts upto parts.classes) parts) }
{
    let classes = empty_classes(alloc, parts.classes.as_slice(), upto)?;
    Ok(Parts {
        tms: parts.tms,
        dms: parts.dms,
        relations: parts.relations,
        fragments: parts.fragments,
        classes: Listed::from_vec(classes),
    })
}

/// The classes, of which the first `upto` read and write nothing.
fn empty_classes(
    alloc: Global,
    classes: &[ClassPart],
    upto: usize,
) -> Result<Vec<ClassPart>, NoMemory>
    requires { upto ≤ length classes.now }
    ensures { IfOk result (λ all. all.items ≡ retired_parts upto classes.now) }
{
    let retired = empty_all(alloc, &classes[..upto])?;
    with_copies(retired, &classes[upto..])
}

/// The classes, emptied.
fn empty_all(alloc: Global, classes: &[ClassPart]) -> Result<Vec<ClassPart>, NoMemory>
    ensures { IfOk result (λ all. all.items ≡ map emptied_part classes.now) }
{
    let mut all = Vec::new(alloc);
    for class in classes {
        all.push(empty_class(alloc, class)?)?;
    }
    Ok(all)
}

/// The class with its name and module, which reads and writes nothing.
fn empty_class(alloc: Global, class: &ClassPart) -> Result<ClassPart, NoMemory>
    ensures { IfOk result (λ part. part ≡ emptied_part class.now) }
{
    Ok(ClassPart {
        name: class.name.copy()?,
        tm: class.tm,
        reads: Listed::from_vec(Vec::new(alloc)),
        writes: Listed::from_vec(Vec::new(alloc)),
    })
}
