//! Catalogues that are built of their parts, that a further class extends, and whose classes retire.
use sdd_eras::{extend, retire};
use sdd_script::{CatError, Catalogue, ClassPart, Listed, Name, NoMemory, Parcel, Parts};
use std::alloc::Global;
use std::slice;

pub fn is_built_again(alloc: Global, catalogue: &Catalogue) -> Result<bool, NoMemory> {
    let parts = catalogue.parts()?;
    are_built(alloc, catalogue, &parts)
}

/// Whether a copy of the catalogue has the parts, and so has the catalogue that they build.
fn are_built(alloc: Global, catalogue: &Catalogue, parts: &Parts) -> Result<bool, NoMemory> {
    if is_copied(catalogue, parts)? {
        return is_built(alloc, parts);
    }
    Ok(false)
}

fn is_copied(catalogue: &Catalogue, parts: &Parts) -> Result<bool, NoMemory> {
    match catalogue.copy() {
        Ok(copy) => has_parts(&copy, parts),
        Err(_) => Err(NoMemory),
    }
}

/// Whether the catalogue has as many relations and fragments as the parts, and the same last class.
fn has_parts(catalogue: &Catalogue, parts: &Parts) -> Result<bool, NoMemory> {
    match parts.classes.as_slice() {
        [.., last] => Ok(has_counts(catalogue, parts) && ends_with(catalogue, last)?),
        _ => Ok(false),
    }
}

fn has_counts(catalogue: &Catalogue, parts: &Parts) -> bool {
    catalogue.relations() as usize == parts.relations.as_slice().len()
        && catalogue.fragments() as usize == parts.fragments.as_slice().len()
        && catalogue.classes() as usize == parts.classes.as_slice().len()
}

fn is_built(alloc: Global, parts: &Parts) -> Result<bool, NoMemory> {
    match Catalogue::build(alloc, parts) {
        Ok(catalogue) => has_parts(&catalogue, parts),
        Err(_) => Ok(false),
    }
}

/// A class `audit` comes after those that are there.
pub fn is_extended(alloc: Global, catalogue: &Catalogue) -> Result<bool, NoMemory> {
    match Name::new(alloc, "audit")? {
        Some(name) => is_extended_by(alloc, catalogue, &idle(alloc, name)),
        None => Ok(false),
    }
}

/// A class that reads and writes nothing.
fn idle(alloc: Global, name: Name) -> ClassPart {
    ClassPart {
        name,
        tm: 1,
        reads: Listed::from_vec(Vec::new(alloc)),
        writes: Listed::from_vec(Vec::new(alloc)),
    }
}

fn is_extended_by(
    alloc: Global,
    catalogue: &Catalogue,
    class: &ClassPart,
) -> Result<bool, NoMemory> {
    match extend(alloc, catalogue, slice::from_ref(class)) {
        Ok(extended) => ends_with(&extended, class),
        Err(_) => Ok(false),
    }
}

fn ends_with(catalogue: &Catalogue, class: &ClassPart) -> Result<bool, NoMemory> {
    let parts = catalogue.parts()?;
    Ok(is_last(parts.classes.as_slice(), class))
}

/// Whether the class is the last of several.
fn is_last(classes: &[ClassPart], class: &ClassPart) -> bool {
    match classes {
        [_, .., last] => last == class,
        _ => false,
    }
}

/// No class is put after those that are there by the name of one of them.
pub fn is_refused(alloc: Global, catalogue: &Catalogue) -> Result<bool, NoMemory> {
    let parts = catalogue.parts()?;
    Ok(has_fault(extend(alloc, catalogue, parts.classes.as_slice())))
}

fn has_fault(extended: Result<Catalogue, CatError>) -> bool {
    match extended {
        Err(CatError::Fault(_)) => true,
        _ => false,
    }
}

/// All classes retire: the last one reads and writes nothing any more.
pub fn is_retired(alloc: Global, catalogue: &Catalogue) -> Result<bool, NoMemory> {
    let retired = retire(alloc, catalogue, catalogue.classes())?;
    has_idle(&retired)
}

/// Whether the last class reads and writes nothing.
fn has_idle(catalogue: &Catalogue) -> Result<bool, NoMemory> {
    let parts = catalogue.parts()?;
    Ok(ends_idle(parts.classes.as_slice()))
}

fn ends_idle(classes: &[ClassPart]) -> bool {
    match classes {
        [.., last] => last.reads.as_slice().is_empty() && last.writes.as_slice().is_empty(),
        _ => false,
    }
}
