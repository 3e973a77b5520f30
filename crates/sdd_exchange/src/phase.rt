ghost use Rattle.std.specs.Prelude.{◌≡◌, ◌+◌, ◌≤◌, option_map};
ghost use Rattle.sdd_rules.specs.All.{move_at, next_move, use_at};
ghost use Rattle.sdd_exchange.specs.Phases.{move_of};
ghost use Rattle.sdd_exchange.specs.Room.{FitsMove, IsSmallQuery};

use crate::queries::Asking;
use sdd_module::Ref;
use sdd_semijoin::{Move, Step, next_move};

/// A move whose columns are of uses of the whole transaction.
#[derive(Clone, Copy)]
pub(crate) struct Reduction {
    pub(crate) step: Step,
    /// The column that gives the values.
    pub(crate) source: Ref,
    /// The column that is reduced.
    pub(crate) target: Ref,
}

/// What an exchange awaits.
#[derive(Clone, Copy)]
pub(crate) enum Phase {
    /// READY of each module.
    Reading,
    /// VALUES of each module of the source.
    Fetching(Reduction),
    /// REDUCED of each module of the target.
    Reducing(Reduction),
    /// ROWS of each module.
    Shipping,
    /// Nothing more: the attempt may commit.
    Over,
}

impl Reduction {
    /// A move of a query, where so many uses stand before the query.
    pub(crate) fn of(before: u32, one: &Move) -> Reduction
        requires { FitsMove before one.now }
        ensures { move_of result ≡ move_at before one.now }
    {
        Reduction {
            step: one.step(),
            source: use_at(before, one.source()),
            target: use_at(before, one.target()),
        }
    }
}

/// The next move of a query whose uses have these numbers of rows, once these steps are done.
pub(crate) fn next_reduction(query: &Asking, counts: &[u128], done: &[Step]) -> Option<Reduction>
    requires { IsSmallQuery query.now }
    ensures { option_map move_of result
        ≡ option_map (move_at query.now.before) (next_move query.now.conds counts.now done.now) }
{
    match next_move(query.conds.as_slice(), counts, done) {
        None => None,
        Some(one) => Some(Reduction::of(query.before, &one)),
    }
}

fn use_at(before: u32, at: Ref) -> Ref
    requires { before + at.part ≤ 192 }
    ensures { result ≡ use_at before at }
{
    Ref {
        part: before + at.part,
        column: at.column,
    }
}
