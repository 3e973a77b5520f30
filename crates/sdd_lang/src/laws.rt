//! Laws of transactions: facts about the definitions, each carried by the contract of a function.
//! A program has no need to call them.
ghost use Rattle.std.specs.Prelude.{◌≡◌, All};
ghost use Rattle.sdd_lang.specs.Agree.{ReadSetDecides};
ghost use Rattle.sdd_lang.specs.Changes.{ChangesItems, ArePlaced, LieIn, OneAnItem};
ghost use Rattle.sdd_lang.specs.Classes.{write_set};
ghost use Rattle.sdd_lang.specs.Database.{Database, database_of};
ghost use Rattle.sdd_lang.specs.Effect.{effect};
ghost use Rattle.sdd_lang.specs.Fits.{FitsStart, FitsTxn};
ghost use Rattle.sdd_lang.specs.Serial.{after_changes};
ghost use Rattle.sdd_lang.specs.Sound.{IsDatabase, IsHeld, PutsHeld};

use crate::statement::Stmt;
use crate::transaction::Txn;
use sdd_base::{RelNo, Row, Value};
use sdd_catalog::Catalogue;

/// What a transaction does is decided by the fragments that it reads: on two databases that have the
/// same entries in each fragment of its read set it has the same effect. Takes no memory.
#[tactic(auto, using(crate::proofs::ReadSetDecides::read_set_decides))]
pub fn law_read_set_decides(catalogue: &Catalogue, txn: &Txn)
    requires { FitsTxn catalogue.now txn.now }
    ensures { ReadSetDecides catalogue.now txn.now }
{
    catalogue.law_is_sound();
}

/// A transaction leaves a database a database. Costs time in the values of the rows that it puts.
/// Takes no memory.
pub fn law_stays_database(catalogue: &Catalogue, txn: &Txn)
    requires { FitsTxn catalogue.now txn.now }
    ensures { (db : Database) → IsDatabase catalogue.now db → IsDatabase catalogue.now (after_changes catalogue.now db (effect catalogue.now db txn.now).changes) }
{
    catalogue.law_is_sound();
    law_puts_held(txn);
}

/// The changes of a transaction: each is of an item of a relation and leaves a row that fits, with the
/// item's key, or none; it names the fragment that holds the item, which is one of the write set; and
/// of an item there is one. Costs time in the values of the rows that it puts. Takes no memory.
pub fn law_changes(catalogue: &Catalogue, txn: &Txn)
    requires { FitsTxn catalogue.now txn.now }
    ensures items { (db : Database) → IsDatabase catalogue.now db → ChangesItems catalogue.now (effect catalogue.now db txn.now) }
    ensures placed { (db : Database) → IsDatabase catalogue.now db → ArePlaced catalogue.now (effect catalogue.now db txn.now) }
    ensures written { (db : Database) → IsDatabase catalogue.now db → LieIn (write_set catalogue.now txn.now) (effect catalogue.now db txn.now) }
    ensures once { (db : Database) → IsDatabase catalogue.now db → OneAnItem catalogue.now (effect catalogue.now db txn.now) }
{
    catalogue.law_is_sound();
    law_puts_held(txn);
}

/// Rows that fit make a database. Costs time in their values. Takes no memory.
pub fn law_rows_make_database(catalogue: &Catalogue, rows: &[(RelNo, Row)])
    requires { All (FitsStart catalogue.now) rows.now }
    ensures { IsDatabase catalogue.now (database_of catalogue.now rows.now) }
{
    law_rows_held(rows);
}

/// The rows that a transaction puts hold numbers of 64 bits. Costs time in their values. Takes no
/// memory.
pub fn law_puts_held(txn: &Txn)
    ensures { All PutsHeld txn.now.statements }
{
    for statement in txn.statements.as_slice() {
        puts_held(statement);
    }
}

/// Rows hold numbers of 64 bits. Costs time in their values. Takes no memory.
pub fn law_rows_held(rows: &[(RelNo, Row)])
    ensures { All (λ r. All IsHeld r.1) rows.now }
{
    for (_, row) in rows {
        row_held(row);
    }
}

fn puts_held(statement: &Stmt)
    ensures { PutsHeld statement.now }
{
    match statement {
        Stmt::Put { rel: _, row } => row_held(row),
        Stmt::Query {
            out: _,
            rels: _,
            conds: _,
        } => {}
        Stmt::Update {
            rel: _,
            sets: _,
            conds: _,
        } => {}
        Stmt::Delete { rel: _, conds: _ } => {}
    }
}

fn row_held(row: &Row)
    ensures { All IsHeld row.now }
{
    for value in row.as_slice() {
        value_held(value);
    }
}

fn value_held(value: &Value)
    ensures { IsHeld value.now }
{
    match value {
        Value::Int(number) => {
            let _number = *number;
        }
        Value::Text(_) => {}
    }
}
