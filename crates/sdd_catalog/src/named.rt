ghost use Rattle.std.specs.Prelude.{◌≡◌, ◌<◌, ◌≤◌, ◌^◌, ◌-◌, ℕ, List, length, map, IfOk, IfSome, bytes_eq};
ghost use Rattle.std.specs.List.{position_from, list_any};
ghost use Rattle.sdd_base.specs.Name.{IsName};
ghost use Rattle.sdd_catalog.specs.Names.{number_of, name_at};
ghost use Rattle.sdd_catalog.specs.Rules.{has_name, repeats};

use crate::parts::{ClassPart, ColumnPart, FragmentPart, ReadPart, RelationPart};
use crate::resolved::{Column, Fragment, Relation};
use sdd_base::{Name, NoMemory, Parcel};

/// A part that goes by a name: its own, or that of the fragment that it is of.
pub(crate) trait Named {
    ghost name_of: { Self → List ℕ };

    fn name(&self) -> &Name
        ensures { result.now ≡ name_of self.now };
}

/// The number of the first item with the name, counted from 1, or 0 where there is none.
#[tactic(auto, using(crate::proofs::NameLemmas::number_of_items))]
pub(crate) fn number_of<T: Named>(name: &Name, items: &[T]) -> u32
    requires { length items.now < 2 ^ 32 - 1 }
    ensures { result ≡ number_of name.now (map T.name_of items.now) }
{
    match place_of(name, items) {
        Some(index) => index as u32 + 1,
        None => 0,
    }
}

/// The index of the first item with the name.
fn place_of<T: Named>(name: &Name, items: &[T]) -> Option<usize>
    ensures value { result ≡ position_from (λ x. bytes_eq name.now (T.name_of x)) 0 items.now }
    ensures within { IfSome result (λ i. i < length items.now) }
{
    items.iter().position(|item| name == item.name())
}

/// The name of the item with the number.
#[tactic(auto, using(crate::proofs::NameLemmas::name_of_item))]
pub(crate) fn name_at<T: Named>(items: &[T], number: u32) -> Result<Name, NoMemory>
    requires from { 1 ≤ number }
    requires to { number ≤ length items.now }
    ensures { IfOk result (λ name. name ≡ name_at (map T.name_of items.now) number) }
{
    items[number as usize - 1].name().copy()
}

/// A copy of a name.
pub(crate) fn copy_name(name: &Name) -> Result<Name, NoMemory>
    ensures value { IfOk result (λ copy. copy ≡ name.now) }
    ensures name { IsName name.now }
{
    let _ = name.as_str();
    name.copy()
}

/// Whether one of the items has the name.
pub(crate) fn has_name<T: Named>(items: &[T], name: &Name) -> bool
    ensures { result ≡ has_name (map T.name_of items.now) name.now }
{
    passes_name(items, name)
}

fn passes_name<T: Named>(items: &[T], name: &Name) -> bool
    ensures { result ≡ list_any (λ x. bytes_eq name.now (T.name_of x)) items.now }
{
    items.iter().any(|item| name == item.name())
}

/// Whether two of the items have one name. Costs time in the square of their number.
pub(crate) fn repeats<T: Named>(items: &[T]) -> bool
    ensures { result ≡ repeats (map T.name_of items.now) }
{
    match items {
        [] => false,
        [item, rest @ ..] => has_name(rest, item.name()) || repeats(rest),
    }
}

impl Named for RelationPart {
    ghost name_of = { λ r. r.name };

    fn name(&self) -> &Name {
        &self.name
    }
}

impl Named for ColumnPart {
    ghost name_of = { λ c. c.name };

    fn name(&self) -> &Name {
        &self.name
    }
}

impl Named for FragmentPart {
    ghost name_of = { λ f. f.name };

    fn name(&self) -> &Name {
        &self.name
    }
}

impl Named for ClassPart {
    ghost name_of = { λ c. c.name };

    fn name(&self) -> &Name {
        &self.name
    }
}

impl Named for ReadPart {
    ghost name_of = { λ r. r.fragment };

    fn name(&self) -> &Name {
        &self.fragment
    }
}

impl Named for Name {
    ghost name_of = { λ name. name };

    fn name(&self) -> &Name {
        self
    }
}

impl Named for Relation {
    ghost name_of = { λ r. r.name };

    fn name(&self) -> &Name {
        &self.name
    }
}

impl Named for Column {
    ghost name_of = { λ c. c.name };

    fn name(&self) -> &Name {
        &self.name
    }
}

impl Named for Fragment {
    ghost name_of = { λ f. f.name };

    fn name(&self) -> &Name {
        &self.name
    }
}
