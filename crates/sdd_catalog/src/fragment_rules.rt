ghost use Rattle.std.specs.Prelude.{◌≡◌, ◌≤◌, length};
ghost use Rattle.sdd_base.specs.Words.{head_of};
ghost use Rattle.sdd_catalog.specs.Rules.{is_from_1_to, copy_rules, fragment_rules, faults_of_fragment, found_in};

use crate::fault::{CatFault, CatRule, Counted, Part};
use crate::named::has_name;
use crate::parts::{FragmentPart, Parts};
use sdd_base::MAX_FRAGMENTS;

/// Whether a number is from 1 to the greatest one.
pub(crate) fn is_from_1_to(most: u32, number: u32) -> bool
    ensures { result ≡ is_from_1_to most number }
{
    1 <= number && number <= most
}

/// The first rule on a copy that is broken, where these stand before it.
fn broken_by_copy(dms: u32, before: &[u32], copy: u32) -> Option<CatRule>
    ensures { result ≡ head_of (copy_rules dms before.now copy) }
{
    if !is_from_1_to(dms, copy) {
        Some(CatRule::UnknownName)
    } else if before.contains(&copy) {
        Some(CatRule::DuplicateName)
    } else {
        None
    }
}

#[tactic(auto, using(crate::proofs::Firsts::found_later, crate::proofs::Firsts::found_nowhere))]
fn broken_by_copies(dms: u32, copies: &[u32]) -> Option<CatRule>
    ensures { result ≡ head_of (found_in (copy_rules dms) copies.now) }
{
    for (index, copy) in copies.iter().enumerate() {
        if let Some(rule) = broken_by_copy(dms, &copies[..index], *copy) {
            return Some(rule);
        }
    }
    None
}

/// The first rule on a fragment that is broken, where these stand before it.
fn broken_by_fragment(
    parts: &Parts,
    before: &[FragmentPart],
    fragment: &FragmentPart,
) -> Option<CatRule>
    ensures { result ≡ head_of (fragment_rules parts.now before.now fragment.now) }
{
    if before.len() >= MAX_FRAGMENTS {
        Some(CatRule::TooMany(Counted::Fragment))
    } else if has_name(before, &fragment.name) {
        Some(CatRule::DuplicateName)
    } else if !has_name(parts.relations.as_slice(), &fragment.relation) {
        Some(CatRule::UnknownName)
    } else if fragment.from > fragment.to {
        Some(CatRule::RangeGap)
    } else if fragment.copies.as_slice().is_empty() {
        Some(CatRule::NoCopy)
    } else {
        broken_by_copies(parts.dms, fragment.copies.as_slice())
    }
}

#[tactic(auto, using(crate::proofs::Firsts::head_of_map))]
fn fault_of_fragment(
    parts: &Parts,
    before: &[FragmentPart],
    fragment: &FragmentPart,
) -> Option<CatFault>
    requires { length before.now ≤ MAX_FRAGMENTS }
    ensures { result ≡ head_of (faults_of_fragment parts.now before.now fragment.now) }
{
    match broken_by_fragment(parts, before, fragment) {
        Some(rule) => Some(CatFault {
            rule,
            part: Part::Fragment,
            number: before.len() + 1,
        }),
        None => None,
    }
}

/// The first fault of a fragment by itself.
#[tactic(auto, using(crate::proofs::Firsts::found_later, crate::proofs::Firsts::found_nowhere, crate::proofs::Counts::few_before_fragment))]
pub(crate) fn fragment_fault(parts: &Parts, fragments: &[FragmentPart]) -> Option<CatFault>
    ensures { result ≡ head_of (found_in (faults_of_fragment parts.now) fragments.now) }
{
    for (index, fragment) in fragments.iter().enumerate() {
        if let Some(fault) = fault_of_fragment(parts, &fragments[..index], fragment) {
            return Some(fault);
        }
    }
    None
}
