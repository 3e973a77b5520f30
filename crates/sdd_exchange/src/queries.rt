ghost use Rattle.std.specs.Prelude.{◌≡◌, ◌++◌, IfOk, OnOk};
ghost use Rattle.sdd_rules.specs.All.{asking_of, askings};
ghost use Rattle.sdd_exchange.specs.Room.{IsSmallStatement, IsSmallText};
ghost use Rattle.sdd_module.specs.All.{uses_in};

use sdd_module::{Conditions, NoMemory, Parcel, Stmt, Txn};
use std::alloc::Global;
use std::collections::VecDeque;
use std::marker::Model;

/// A query of a transaction whose uses may still be reduced.
#[derive(Drop)]
pub(crate) struct Asking {
    /// How many uses stand before it.
    pub(crate) before: u32,
    /// How many uses it has.
    pub(crate) uses: u32,
    pub(crate) conds: Conditions,
}

impl Model for Asking {
    ghost use Rattle.sdd_rules.specs.attempt.Exchange as exchanges;

    ghost Value = { exchanges.Asking };

    ghost view = { λ a. record { before = a.before; uses = a.uses; conds = a.conds } };
}

/// The queries of a transaction, in order.
pub(crate) fn askings(alloc: Global, text: &Txn) -> Result<VecDeque<Asking>, NoMemory>
    requires { IsSmallText text.now }
    ensures { IfOk result (λ queries. queries.items ≡ askings 0 text.now.statements) }
{
    let statements = text.statements.as_slice();
    let mut queries = VecDeque::with_capacity(alloc, count_of(statements))?;
    let mut before = 0;
    for statement in statements {
        add_query(&mut queries, before, statement)?;
        before += uses_in(statement);
    }
    Ok(queries)
}

/// How many queries there are, for which room is made at once.
fn count_of(statements: &[Stmt]) -> usize {
    statements
        .iter()
        .filter(|statement| is_query(statement))
        .count()
}

fn is_query(statement: &Stmt) -> bool {
    match statement {
        Stmt::Query { .. } => true,
        _ => false,
    }
}

/// Adds the query that a statement is, where so many uses stand before it.
fn add_query(queries: &mut VecDeque<Asking>, before: u32, statement: &Stmt) -> Result<(), NoMemory>
    requires { IsSmallStatement statement.now }
    ensures { OnOk result (
        queries.new.items ≡ queries.old.items ++ asking_of before statement.now) }
{
    match statement {
        Stmt::Query { rels, conds, .. } => {
            let conds = conds.copy()?;
            queries.push_back(Asking {
                before,
                uses: rels.as_slice().len() as u32,
                conds,
            })?;
            Ok(())
        }
        _ => Ok(()),
    }
}

/// How many uses a statement has.
fn uses_in(statement: &Stmt) -> u32
    requires { IsSmallStatement statement.now }
    ensures { result ≡ uses_in statement.now }
{
    match statement {
        Stmt::Put { .. } => 0,
        Stmt::Query { rels, .. } => rels.as_slice().len() as u32,
        Stmt::Update { .. } => 1,
        Stmt::Delete { .. } => 1,
    }
}
