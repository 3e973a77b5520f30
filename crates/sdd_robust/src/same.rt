//! Transactions that access the same.
ghost use Rattle.std.specs.Prelude.{◌≡◌, ◌⊎◌, IfOk, OnOk, true, Contains};
ghost use Rattle.sdd_robust.specs.Members.{StandFor, kinds, lent};
ghost use Rattle.sdd_robust.specs.declared.member.Member.{Member};

use crate::member::Member;
use sdd_lang::NoMemory;
use sdd_robust_laws::Access;
use std::alloc::Global;

fn is_same(a: &Access, b: &Access) -> bool
    ensures { result ≡ true → a.now ≡ b.now }
{
    a.least == b.least
        && a.greatest == b.greatest
        && a.rel == b.rel
        && a.column == b.column
        && a.reads == b.reads
        && a.changes == b.changes
        && a.sure == b.sure
}

/// Whether both are the same accesses in the same order.
fn are_same(a: &[Access], b: &[Access]) -> bool
    ensures { result ≡ true → a.now ≡ b.now }
{
    if a.len() != b.len() {
        return false;
    }
    'accesses: for i in 0..a.len() {
        if !is_same(&a[i], &b[i]) {
            return false;
        }
    }
    true
}

/// Whether one of the members has these accesses.
fn is_among(members: &[&Member], accesses: &[Access]) -> bool
    ensures { result ≡ true → Contains (kinds (lent members.now)) accesses.now }
{
    'members: for other in members {
        if are_same(other.accesses.as_slice(), accesses) {
            return true;
        }
    }
    false
}

/// Adds the member, unless one of those that are found has the same accesses.
fn add_new<'a>(found: &mut Vec<&'a Member>, member: &'a Member) -> Result<(), NoMemory>
    ensures kept { OnOk result ((m : Member) → Contains (lent found.old.items) m → Contains (lent found.new.items) m) }
    ensures of_them { OnOk result ((m : Member) → Contains (lent found.new.items) m
        → Contains (lent found.old.items) m ⊎ (member.now ≡ m)) }
    ensures like_it { OnOk result (Contains (kinds (lent found.new.items)) member.now.accesses) }
{
    if is_among(found.as_slice(), member.accesses.as_slice()) {
        return Ok(());
    }
    found.push(member)?;
    Ok(())
}

/// Of members with the same accesses the first one. Costs for each member a comparison with each of
/// those that are found before.
pub(crate) fn first_of_each<'a>(
    alloc: Global,
    all: &'a [Member],
) -> Result<Vec<&'a Member>, NoMemory>
    ensures { IfOk result (λ found. StandFor all.now (lent found.items)) }
{
    let mut found = Vec::new(alloc);
    'members: for member in all {
        add_new(&mut found, member)?;
    }
    Ok(found)
}
