//! Transactions to which conflicts lead.
ghost use Rattle.std.specs.Prelude.{◌≡◌, ◌++◌, ◌∷◌, [], IfOk, OnOk, Contains, List, filter, not};
ghost use Rattle.sdd_robust_laws.specs.Accesses.{conflict};
ghost use Rattle.sdd_robust_laws.specs.declared.access.Access.{Access};
ghost use Rattle.sdd_robust.specs.Leading.{Leads};
ghost use Rattle.sdd_robust.specs.declared.member.Member.{Member};
ghost use Rattle.sdd_robust.specs.Members.{kinds, lent};

use crate::meeting::conflict;
use crate::member::Member;
use sdd_lang::NoMemory;
use std::alloc::Global;

/// Those to which conflicts lead from the start, all of them beside the pivot. Costs a test for
/// conflicts for each two of which one is found and the other isn't found before.
pub(crate) fn linked<'a>(
    alloc: Global,
    beside: &[&'a Member],
    start: &'a Member,
) -> Result<Vec<&'a Member>, NoMemory>
    requires { Contains (lent beside.now) start.now }
    ensures sound { IfOk result (λ found. (m : Member) → Contains (lent found.items) m
        → Contains (lent beside.now) m × Leads (kinds (lent beside.now)) start.now.accesses m.accesses) }
    ensures complete { IfOk result (λ found. (a : List Access) → Leads (kinds (lent beside.now)) start.now.accesses a
        → Contains (kinds (lent found.items)) a) }
{
    let mut reached = vec![in alloc; start]?;
    let mut left = listed(alloc, beside)?;
    let mut next = 0;
    'reached: while next < reached.len() {
        let so_far = reached.as_slice();
        let from = so_far[next];
        left = move_on(alloc, from, left.as_slice(), &mut reached)?;
        next += 1;
    }
    Ok(reached)
}

/// The same members in a list that may change.
fn listed<'a>(alloc: Global, members: &[&'a Member]) -> Result<Vec<&'a Member>, NoMemory>
    ensures { IfOk result (λ found. found.items ≡ members.now) }
{
    let mut found = Vec::with_capacity(alloc, members.len())?;
    found.extend_from_slice(members)?;
    Ok(found)
}

/// Adds those that are left and conflict with one, and gives those that are still left.
fn move_on<'a>(
    alloc: Global,
    from: &Member,
    left: &[&'a Member],
    reached: &mut Vec<&'a Member>,
) -> Result<Vec<&'a Member>, NoMemory>
    ensures reached { OnOk result (lent reached.new.items
        ≡ lent reached.old.items ++ filter (λ d. conflict from.now.accesses d.accesses) (lent left.now)) }
    ensures rest { IfOk result (λ rest. lent rest.items
        ≡ filter (λ d. not (conflict from.now.accesses d.accesses)) (lent left.now)) }
{
    let mut rest = Vec::new(alloc);
    'left: for other in left {
        if conflict(from.accesses.as_slice(), other.accesses.as_slice()) {
            reached.push(*other)?;
        } else {
            rest.push(*other)?;
        }
    }
    Ok(rest)
}
