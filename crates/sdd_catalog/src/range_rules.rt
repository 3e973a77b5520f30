ghost use Rattle.std.specs.Prelude.{◌≡◌, ◌≤◌, length, IfOk};
ghost use Rattle.sdd_base.specs.Words.{head_of};
ghost use Rattle.sdd_catalog.specs.Rules.{next_rules, faults_after, cover_faults, faults_of_ranges, found_in};

use crate::fault::{CatFault, CatRule, Part};
use crate::parts::{FragmentPart, RelationPart};
use crate::ranges::{KeyRange, sorted_ranges};
use sdd_base::{MAX_FRAGMENTS, MAX_RELATIONS, NoMemory};
use std::alloc::Global;

/// The rule that a range breaks where it comes next after another one.
fn broken_by_next(last: KeyRange, next: KeyRange) -> Option<CatRule>
    ensures { result ≡ head_of (next_rules last.to next.from) }
{
    if next.from <= last.to {
        Some(CatRule::RangeOverlap)
    } else if last.to + 1 < next.from {
        Some(CatRule::RangeGap)
    } else {
        None
    }
}

fn range_fault_at(rule: CatRule, range: KeyRange) -> CatFault
    ensures { result ≡ record { rule = rule; part = Part.Fragment; number = range.number } }
{
    CatFault {
        rule,
        part: Part::Fragment,
        number: range.number as usize,
    }
}

/// The first fault after a range that is followed by these.
#[tactic(auto, using(crate::proofs::RangeFaults::after_next, crate::proofs::RangeFaults::after_fault, crate::proofs::RangeFaults::after_last))]
fn fault_after(first: KeyRange, rest: &[KeyRange]) -> Option<CatFault>
    ensures { result ≡ head_of (faults_after first rest.now) }
{
    let mut last = first;
    for range in rest {
        if let Some(rule) = broken_by_next(last, *range) {
            return Some(range_fault_at(rule, *range));
        }
        last = *range;
    }
    if last.to < i64::MAX {
        Some(range_fault_at(CatRule::RangeGap, last))
    } else {
        None
    }
}

/// The first fault of the ranges of a relation, which are in order.
fn cover_fault(relation: u32, ranges: &[KeyRange]) -> Option<CatFault>
    ensures { result ≡ head_of (cover_faults relation ranges.now) }
{
    match ranges {
        [] => Some(CatFault {
            rule: CatRule::RangeGap,
            part: Part::Relation,
            number: relation as usize,
        }),
        [first, rest @ ..] => {
            if first.from > i64::MIN {
                Some(range_fault_at(CatRule::RangeGap, *first))
            } else {
                fault_after(*first, rest)
            }
        }
    }
}

/// The first fault of the ranges of the relations.
#[tactic(auto, using(crate::proofs::Firsts::found_later, crate::proofs::Firsts::found_nowhere))]
pub(crate) fn range_fault(
    alloc: Global,
    relations: &[RelationPart],
    fragments: &[FragmentPart],
) -> Result<Option<CatFault>, NoMemory>
    requires few_relations { length relations.now ≤ MAX_RELATIONS }
    requires few_fragments { length fragments.now ≤ MAX_FRAGMENTS }
    ensures { IfOk result (λ found. found ≡ head_of (found_in (faults_of_ranges fragments.now) relations.now)) }
{
    for (index, relation) in relations.iter().enumerate() {
        let ranges = sorted_ranges(alloc, &relation.name, fragments)?;
        if let Some(fault) = cover_fault(index as u32 + 1, &ranges) {
            return Ok(Some(fault));
        }
    }
    Ok(None)
}
