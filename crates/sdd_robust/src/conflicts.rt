//! With which transactions each conflicts, and to which conflicts lead.
ghost use Rattle.std.specs.Prelude.{◌≡◌, IfOk, IfSome, false};
ghost use Rattle.sdd_robust_laws.specs.Accesses.{conflict};
ghost use Rattle.sdd_robust.specs.Members.{lent};
ghost use Rattle.sdd_robust.specs.PlaceSets.{HasEach, IsRest, Lacks, Spreads};

use crate::meeting::conflict;
use crate::member::Member;
use crate::place_set::PlaceSet;
use sdd_lang::NoMemory;
use std::alloc::Global;
use std::collections::VecDeque;
use std::marker::Model;

/// Transactions, with the places among them of those with which each conflicts, as far as that was asked
/// for.
#[derive(Drop)]
pub(crate) struct Conflicts<'a> {
    members: &'a [&'a Member],
    rows: Vec<Option<PlaceSet>>,
}

impl<'a> Model for Conflicts<'a> {
    ghost use Rattle.std.specs.Prelude.{List};
    ghost use Rattle.sdd_robust.specs.Members.{lent};
    ghost use Rattle.sdd_robust.specs.PlaceSets.{AreRows};
    ghost use Rattle.sdd_robust.specs.declared.member.Member.{Member};

    ghost Value = { List Member };

    ghost view = { λ c. lent c.members.now };

    ghost invariant = { λ c. AreRows (lent c.members.now) c.rows.items };
}

/// The places of those with which one conflicts.
fn conflicting_with(alloc: Global, members: &[&Member], one: &Member) -> Result<PlaceSet, NoMemory>
    ensures { IfOk result (λ found. HasEach (λ m. conflict one.now.accesses m.accesses) (lent members.now) found) }
{
    let mut found = PlaceSet::new(alloc, members.len())?;
    'places: for place in 0..members.len() {
        let other = members[place].accesses.as_slice();
        found.add_where(conflict(one.accesses.as_slice(), other), place);
    }
    Ok(found)
}

impl<'a> Conflicts<'a> {
    /// Costs memory for a reference to each.
    pub(crate) fn of(alloc: Global, members: &'a [&'a Member]) -> Result<Conflicts<'a>, NoMemory>
        ensures { IfOk result (λ conflicts. conflicts ≡ lent members.now) }
    {
        let mut rows = Vec::with_capacity(alloc, members.len())?;
        'members: for _ in 0..members.len() {
            rows.push(None)?;
        }
        Ok(Conflicts { members, rows })
    }

    /// Finds with which one conflicts, where that isn't known yet. Costs a test for each transaction.
    fn learn(&mut self, alloc: Global, at: usize) -> Result<(), NoMemory>
        ensures { self.new ≡ self.old }
    {
        if at < self.members.len() && at < self.rows.len() && self.rows[at].is_none() {
            self.rows[at] = Some(conflicting_with(alloc, self.members, self.members[at])?);
        }
        Ok(())
    }

    /// Takes those out of the rest with which one conflicts, and puts them into the queue. Answers
    /// whether an end may be among them, or it is one itself; then it need not have taken them.
    fn spread(
        &mut self,
        alloc: Global,
        at: usize,
        ends: &PlaceSet,
        rest: &mut PlaceSet,
        queue: &mut VecDeque<usize>,
    ) -> Result<bool, NoMemory>
        ensures same { self.new ≡ self.old }
        ensures spread { IfOk result (λ met. met ≡ false → Spreads self.old at ends.now rest.old rest.new queue.old.items queue.new.items) }
    {
        if ends.has(at) {
            return Ok(true);
        }
        self.learn(alloc, at)?;
        match self.rows.get(at) {
            Some(Some(row)) => return rest.take(row, ends, queue),
            _ => {}
        }
        Ok(true)
    }

    /// What is left of the places without those to which conflicts lead from the start, through what is
    /// left; None where one of them is an end. Costs a step for each word of the set for each that is
    /// reached, and for those of which it isn't known what `learn` costs.
    pub(crate) fn without_reached(
        &mut self,
        alloc: Global,
        left: &PlaceSet,
        start: usize,
        ends: &PlaceSet,
    ) -> Result<Option<PlaceSet>, NoMemory>
        ensures same { self.new ≡ self.old }
        ensures rest { IfOk result (λ found. IfSome found (λ rest. IsRest self.old left.now ends.now rest)) }
        ensures start { IfOk result (λ found. IfSome found (λ rest. Lacks rest start)) }
    {
        let mut rest = left.copy(alloc)?;
        rest.remove(start);
        let mut queue = VecDeque::new(alloc);
        queue.push_back(start)?;
        'reached: for _ in 0..self.members.len() {
            match queue.pop_front() {
                None => return Ok(Some(rest)),
                Some(at) => {
                    if self.spread(alloc, at, ends, &mut rest, &mut queue)? {
                        return Ok(None);
                    }
                }
            }
        }
        match queue.pop_front() {
            None => Ok(Some(rest)),
            Some(_) => Ok(None),
        }
    }
}
