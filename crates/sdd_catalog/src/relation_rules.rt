ghost use Rattle.std.specs.Prelude.{◌≡◌, ◌≤◌, length, find, bytes_eq};
ghost use Rattle.std.specs.Option.{option_copied};
ghost use Rattle.sdd_base.specs.Words.{head_of};
ghost use Rattle.sdd_catalog.specs.Rules.{column_named, key_rules, relation_rules, faults_of_relation, found_in};

use crate::fault::{CatFault, CatRule, Counted, Part};
use crate::named::{has_name, repeats};
use crate::parts::{ColumnPart, Kind, RelationPart};
use sdd_base::{MAX_COLUMNS, MAX_RELATIONS, Name};

fn column_named<'a>(name: &Name, columns: &'a [ColumnPart]) -> Option<&'a ColumnPart>
    ensures { option_copied result ≡ column_named name.now columns.now }
{
    columns.iter().find(|column| *name == column.name)
}

/// The first rule on the key that is broken.
fn broken_key(relation: &RelationPart) -> Option<CatRule>
    ensures { result ≡ head_of (key_rules (column_named relation.now.key relation.now.columns)) }
{
    match column_named(&relation.key, relation.columns.as_slice()) {
        None => Some(CatRule::UnknownName),
        Some(column) => match column.kind {
            Kind::Int => None,
            Kind::Text => Some(CatRule::BadKey),
        },
    }
}

/// The first rule on a relation that is broken, where these stand before it.
fn broken_by_relation(before: &[RelationPart], relation: &RelationPart) -> Option<CatRule>
    ensures { result ≡ head_of (relation_rules before.now relation.now) }
{
    if before.len() >= MAX_RELATIONS {
        Some(CatRule::TooMany(Counted::Relation))
    } else if has_name(before, &relation.name) {
        Some(CatRule::DuplicateName)
    } else if relation.columns.as_slice().len() > MAX_COLUMNS {
        Some(CatRule::TooMany(Counted::Column))
    } else if repeats(relation.columns.as_slice()) {
        Some(CatRule::DuplicateName)
    } else {
        broken_key(relation)
    }
}

#[tactic(auto, using(crate::proofs::Firsts::head_of_map))]
fn fault_of_relation(before: &[RelationPart], relation: &RelationPart) -> Option<CatFault>
    requires { length before.now ≤ MAX_RELATIONS }
    ensures { result ≡ head_of (faults_of_relation before.now relation.now) }
{
    match broken_by_relation(before, relation) {
        Some(rule) => Some(CatFault {
            rule,
            part: Part::Relation,
            number: before.len() + 1,
        }),
        None => None,
    }
}

/// The first fault of a relation by itself.
#[tactic(auto, using(crate::proofs::Firsts::found_here, crate::proofs::Firsts::found_later, crate::proofs::Firsts::found_nowhere, crate::proofs::Counts::few_before_relation))]
pub(crate) fn relation_fault(relations: &[RelationPart]) -> Option<CatFault>
    ensures { result ≡ head_of (found_in faults_of_relation relations.now) }
{
    for (index, relation) in relations.iter().enumerate() {
        if let Some(fault) = fault_of_relation(&relations[..index], relation) {
            return Some(fault);
        }
    }
    None
}
