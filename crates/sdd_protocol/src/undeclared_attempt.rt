ghost use Rattle.std.specs.Prelude.{◌≡◌, ◌≤◌, map, IfOk};
ghost use Rattle.sdd_base.specs.Numbers.{frag_no};
ghost use Rattle.sdd_catalog.specs.Catalogue.{numbers_to};
ghost use Rattle.sdd_graph.specs.Graph.{fragments_of};
ghost use Rattle.sdd_protocol.specs.Conditions.{cond_of, undeclared_conditions};

use sdd_base::{ClassNo, Cond, FragNo, Frags, MAX_CLASSES, NoMemory, Parcel, Ts};
use sdd_catalog::Catalogue;
use std::alloc::Global;

/// The read conditions, at every data module, of an attempt of no declared class: every class, ascending,
/// for all fragments, up to the attempt's own timestamp.
///
/// Costs time and memory in the classes times the fragments.
pub fn undeclared_conds(
    alloc: Global,
    catalogue: &Catalogue,
    own: Ts,
) -> Result<Vec<Cond>, NoMemory>
    ensures { IfOk result (λ conds. conds.items ≡ undeclared_conditions catalogue.now own.0) }
{
    catalogue.law_is_sound();
    let frags = Frags::from_vec(all_fragments(alloc, catalogue)?);
    conditions_on(alloc, catalogue.classes(), own, &frags)
}

/// The conditions on so many classes, each for the fragments.
fn conditions_on(alloc: Global, classes: u32, own: Ts, frags: &Frags) -> Result<Vec<Cond>, NoMemory>
    requires { classes ≤ MAX_CLASSES }
    ensures { IfOk result (λ conds.
        conds.items ≡ map (λ c. cond_of c own.0 frags.now) (numbers_to classes)) }
{
    let mut conds = Vec::new(alloc);
    for class in 1..classes + 1 {
        conds.push(condition_on(ClassNo(class), own, frags)?)?;
    }
    Ok(conds)
}

/// The condition on a class for the fragments.
fn condition_on(class: ClassNo, time: Ts, frags: &Frags) -> Result<Cond, NoMemory>
    ensures { IfOk result (λ made. made ≡ cond_of class.0 time.0 frags.now) }
{
    Ok(Cond {
        class,
        time,
        frags: frags.copy()?,
    })
}

/// All fragments, ascending.
fn all_fragments(alloc: Global, catalogue: &Catalogue) -> Result<Vec<FragNo>, NoMemory>
    ensures { IfOk result (λ frags. frags.items ≡ map frag_no (fragments_of catalogue.now)) }
{
    catalogue.law_is_sound();
    Ok(
        (1..catalogue.fragments() + 1)
            .map(|frag| FragNo(frag))
            .collect(alloc)?,
    )
}
