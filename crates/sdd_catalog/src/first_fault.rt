ghost use Rattle.std.specs.Prelude.{◌≡◌, IfOk};
ghost use Rattle.sdd_base.specs.Words.{head_of};
ghost use Rattle.sdd_catalog.specs.Rules.{faults_of};

use crate::class_rules::class_fault;
use crate::count_rules::count_fault;
use crate::fault::CatFault;
use crate::fragment_rules::fragment_fault;
use crate::parts::Parts;
use crate::range_rules::range_fault;
use crate::relation_rules::relation_fault;
use sdd_base::NoMemory;
use std::alloc::Global;

/// The first fault of the parts, in the order of the rules.
#[tactic(auto, using(crate::proofs::FirstFault::few_relations, crate::proofs::FirstFault::few_fragments))]
pub(crate) fn first_fault(alloc: Global, parts: &Parts) -> Result<Option<CatFault>, NoMemory>
    ensures { IfOk result (λ found. found ≡ head_of (faults_of parts.now)) }
{
    let relations = parts.relations.as_slice();
    let fragments = parts.fragments.as_slice();
    if let Some(fault) = count_fault(parts) {
        return Ok(Some(fault));
    }
    if let Some(fault) = relation_fault(relations) {
        return Ok(Some(fault));
    }
    if let Some(fault) = fragment_fault(parts, fragments) {
        return Ok(Some(fault));
    }
    if let Some(fault) = range_fault(alloc, relations, fragments)? {
        return Ok(Some(fault));
    }
    Ok(class_fault(alloc, parts)?)
}
