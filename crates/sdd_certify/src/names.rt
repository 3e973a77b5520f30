//! The transactions that an order line names.
ghost use Rattle.std.specs.Prelude.{ℕ, ◌≡◌, ◌<◌, List, length, map, IfOk};
ghost use Rattle.std.specs.BTreeMap.{get};
ghost use Rattle.std.specs.Cmp.Lexicographic.{slice_cmp};
ghost use Rattle.std.specs.Option.{option_copied};
ghost use Rattle.std.specs.Ordering.{nat_cmp};
ghost use Rattle.sdd_certify.specs.Places.{name_at, place_in, place_of};
ghost use Rattle.sdd_verify.specs.Orders.{names_on};

use crate::bytes::copied;
use crate::words::words_of;
use sdd_script::{Bytes, NoMemory};
use std::alloc::Global;
use std::collections::BTreeMap;
use std::marker::Model;

/// The names of an order, each with its place.
#[derive(Drop)]
pub struct OrderNames<'a> {
    names: Vec<&'a [u8]>,
    places: BTreeMap<Bytes, usize>,
}

impl<'a> Model for OrderNames<'a> {
    ghost use Rattle.std.specs.Prelude.{ℕ, ◌≡◌, List, map};
    ghost use Rattle.std.specs.BTreeMap.{get};
    ghost use Rattle.std.specs.Cmp.Lexicographic.{slice_cmp};
    ghost use Rattle.std.specs.Ordering.{nat_cmp};
    ghost use Rattle.sdd_certify.specs.Places.{place_in};

    ghost Value = { List (List ℕ) };

    ghost view = { λ s. map (λ w. w.now) s.names.items };

    ghost invariant = { λ s. (name : List ℕ) → get (slice_cmp nat_cmp) s.places name ≡ place_in (map (λ w. w.now) s.names.items) name };
}

/// The names on an order line.
pub(crate) fn names_on(alloc: Global, line: &[u8]) -> Result<Vec<&[u8]>, NoMemory>
    ensures { IfOk result (λ names. map (λ w. w.now) names.items ≡ names_on line.now) }
{
    let words = words_of(alloc, line)?;
    match words.as_slice() {
        [_, names @ ..] => Ok(Vec::from_slice(alloc, names)?),
        [] => Ok(Vec::new(alloc)),
    }
}

/// The place of the first of each name, counted from 1.
fn places_of(alloc: Global, names: &[&[u8]]) -> Result<BTreeMap<Bytes, usize>, NoMemory>
    ensures { IfOk result (λ made. (name : List ℕ) → get (slice_cmp nat_cmp) made name ≡ place_in (map (λ w. w.now) names.now) name) }
{
    let mut made = BTreeMap::new(alloc);
    'names: for (i, name) in names.iter().enumerate() {
        let name = copied(alloc, name)?;
        if !made.contains_key(&name) {
            made.insert(name, i + 1)?;
        }
    }
    Ok(made)
}

impl<'a> OrderNames<'a> {
    /// The names on an order line. Costs a logarithmic step for each.
    pub(crate) fn on(alloc: Global, line: &'a [u8]) -> Result<Self, NoMemory>
        ensures { IfOk result (λ made. made ≡ names_on line.now) }
    {
        let names = names_on(alloc, line)?;
        let places = places_of(alloc, names.as_slice())?;
        Ok(OrderNames { names, places })
    }

    /// The place of this name, counted from 1.
    fn find_place(&self, alloc: Global, name: &[u8]) -> Result<Option<usize>, NoMemory>
        ensures { IfOk result (λ found. found ≡ place_in self.now name.now) }
    {
        let _ = &self.names;
        let name = copied(alloc, name)?;
        Ok(self.places.get(&name).copied())
    }

    /// The place of the transaction of this name, counted from 1; 0 where it doesn't stand in the
    /// order, or there is no name. Costs a logarithmic step.
    pub(crate) fn place_of(&self, alloc: Global, name: Option<&[u8]>) -> Result<usize, NoMemory>
        ensures { IfOk result (λ place. place ≡ place_of self.now (option_copied name.entry)) }
    {
        match name {
            Some(name) => Ok(self.find_place(alloc, name)?.unwrap_or(0)),
            None => Ok(0),
        }
    }

    /// The name at a place that is counted from 1.
    pub(crate) fn name_at(&self, place: usize) -> &'a [u8]
        requires { 0 < place }
        ensures { result.now ≡ name_at self.now place }
    {
        let _ = &self.places;
        match self.names.get(place - 1) {
            Some(name) => name,
            None => &[],
        }
    }
}
