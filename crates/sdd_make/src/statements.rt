//! What the made transactions do.
ghost use Rattle.std.specs.Prelude.{◌≡◌, ◌<◌, IfOk};
ghost use Rattle.sdd_make.specs.Statements.{of_account, compared, account_query, addition, payment, balances, owners, txn_at, txn_of_kind, txn_of};

use crate::naming::txn_name;
use sdd_script::{
    Assign, Condition, Conditions, NoMemory, Op, Ref, Refs, RelNo, Rels, Sets, Statements, Stmt,
    TmNo, Txn, Value,
};
use std::alloc::Global;

/// A column of the accounts.
fn of_account(column: u32) -> Ref
    ensures { result ≡ of_account column }
{
    Ref { part: 1, column }
}

/// One condition, which compares a column with a number.
fn comparison(alloc: Global, column: u32, op: Op, number: i64) -> Result<Conditions, NoMemory>
    ensures { IfOk result (λ conds. conds ≡ compared column op number) }
{
    let condition = Condition::Const {
        left: of_account(column),
        op,
        value: Value::Int(number),
    };
    Ok(Conditions::from_vec(vec![in alloc; condition]?))
}

/// An update that adds to the balance of an account.
fn addition(alloc: Global, by: i64, id: u32) -> Result<Stmt, NoMemory>
    ensures { IfOk result (λ s. s ≡ addition by id) }
{
    let sets = Sets::from_vec(vec![in alloc; Assign::Add { column: 3, by }]?);
    Ok(Stmt::Update {
        rel: RelNo(1),
        sets,
        conds: comparison(alloc, 1, Op::Eq, i64::from(id))?,
    })
}

/// One unit goes from an account to another one.
fn payment(alloc: Global, from: u32, to: u32) -> Result<Statements, NoMemory>
    ensures { IfOk result (λ s. s ≡ payment from to) }
{
    let taken = addition(alloc, -1, from)?;
    let given = addition(alloc, 1, to)?;
    Ok(Statements::from_vec(vec![in alloc; taken, given]?))
}

/// A query over the accounts.
fn account_query(
    alloc: Global,
    first: u32,
    second: u32,
    conds: Conditions,
) -> Result<Statements, NoMemory>
    ensures { IfOk result (λ s. s ≡ account_query first second conds) }
{
    let query = Stmt::Query {
        out: Refs::from_vec(vec![in alloc; of_account(first), of_account(second)]?),
        rels: Rels::from_vec(vec![in alloc; RelNo(1)]?),
        conds,
    };
    Ok(Statements::from_vec(vec![in alloc; query]?))
}

/// All accounts with their balances.
fn balances(alloc: Global) -> Result<Statements, NoMemory>
    ensures { IfOk result (λ s. s ≡ balances) }
{
    account_query(alloc, 1, 3, Conditions::from_vec(Vec::new(alloc)))
}

/// The owners of accounts with a balance.
fn owners(alloc: Global) -> Result<Statements, NoMemory>
    ensures { IfOk result (λ s. s ≡ owners) }
{
    account_query(alloc, 2, 3, comparison(alloc, 3, Op::Ge, 50)?)
}

/// Transaction number i, at a module.
fn txn_at(alloc: Global, i: u32, tm: u8, statements: Statements) -> Result<Txn, NoMemory>
    ensures { IfOk result (λ t. t ≡ txn_at i tm statements) }
{
    Ok(Txn {
        name: txn_name(alloc, i)?,
        tm: TmNo(tm),
        statements,
    })
}

fn txn_of_kind(alloc: Global, i: u32, kind: u32, a: u32, b: u32) -> Result<Txn, NoMemory>
    requires a { a < 10 }
    requires b { b < 10 }
    ensures { IfOk result (λ t. t ≡ txn_of_kind i kind a b) }
{
    match kind {
        0 => txn_at(alloc, i, 1, payment(alloc, a, b)?),
        1 => txn_at(alloc, i, 2, payment(alloc, 1000 + a, 1000 + b)?),
        2 => txn_at(alloc, i, 3, payment(alloc, a, 1000 + b)?),
        _ => txn_at(alloc, i, 3, balances(alloc)?),
    }
}

/// Transaction number i, of this kind and with these accounts.
pub fn txn_of(alloc: Global, i: u32, kind: u32, a: u32, b: u32) -> Result<Txn, NoMemory>
    requires a { a < 10 }
    requires b { b < 10 }
    ensures { IfOk result (λ t. t ≡ txn_of i kind a b) }
{
    if i % 64 == 0 {
        txn_at(alloc, i, 1, owners(alloc)?)
    } else {
        txn_of_kind(alloc, i, kind, a, b)
    }
}
