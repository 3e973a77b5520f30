//! The classes of the submitted transactions.
ghost use Rattle.std.specs.Prelude.{ℕ, ◌≡◌, ◌<◌, ◌^◌, ◌++◌, All, IfOk};
ghost use Rattle.sdd_script.specs.All.{FitsTxn};
ghost use Rattle.sdd_verify.specs.Classes.{class_if, classes_from, era_at, redeclared};
ghost use Rattle.sdd_verify.specs.Submitted.{submitted_by};

use crate::submitted::submitted_by;
use sdd_script::{Catalogue, Event, NoMemory, Txn, Workload, class_for};
use std::alloc::Global;

/// The catalogue in force after so many `redeclare`s.
fn era_at<'a>(catalogue: &'a Catalogue, eras: &'a [Catalogue], redeclared: usize) -> &'a Catalogue
    ensures { result.now ≡ era_at catalogue.now eras.now redeclared }
{
    match eras.get(redeclared) {
        Some(era) => era,
        None => catalogue,
    }
}

/// How many `redeclare`s stand before what follows the event.
fn count_redeclare(event: &Event, before: usize) -> usize
    requires { before < 2 ^ 63 }
    ensures { result ≡ redeclared event.now before }
{
    match event {
        Event::Redeclare => before + 1,
        _ => before,
    }
}

/// Adds the class of the transaction that an event submits, where it submits one.
fn add_class(
    classes: &mut Vec<u32>,
    catalogue: &Catalogue,
    txns: &[Txn],
    event: &Event,
) -> Result<(), NoMemory>
    requires { All (FitsTxn catalogue.now) txns.now }
    ensures { IfOk result (λ _. classes.new.items
        ≡ classes.old.items ++ class_if catalogue.now (submitted_by txns.now event.now)) }
{
    match submitted_by(txns, event) {
        Some(txn) => {
            classes.push(class_for(catalogue, txn).0)?;
            Ok(())
        }
        None => Ok(()),
    }
}

/// The class of each submitted transaction, in order of submission, by the catalogue that is in force
/// at its submission. Costs what `class_for` costs for each.
pub(crate) fn submitted_classes(
    alloc: Global,
    catalogue: &Catalogue,
    eras: &[Catalogue],
    work: &Workload,
) -> Result<Vec<u32>, NoMemory>
    requires { (n : ℕ) → All (FitsTxn (era_at catalogue.now eras.now n)) work.now.txns }
    ensures { IfOk result (λ classes. classes.items
        ≡ classes_from (era_at catalogue.now eras.now) work.now.txns 0 work.now.events) }
{
    let mut classes = Vec::new(alloc);
    let mut before = 0;
    'events: for event in work.events.as_slice() {
        let era = era_at(catalogue, eras, before);
        add_class(&mut classes, era, work.txns.as_slice(), event)?;
        before = count_redeclare(event, before);
    }
    Ok(classes)
}
