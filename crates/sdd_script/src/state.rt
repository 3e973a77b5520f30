use crate::grown::Grown;
use crate::names::Names;
use crate::place::Place;
use crate::submitted::Submitted;
use sdd_lang::{ClassParts, Event, RelNo, Row, Stmt, Txn};

/// What the lines so far have said.
#[derive(Drop)]
pub struct State {
    pub place: Place,
    pub rows: Grown<(RelNo, Row)>,
    /// How many rows there are, and statements that put one, together.
    pub written: u32,
    /// The names of all transactions, the open one's too.
    pub names: Names,
    pub txns: Grown<Txn>,
    /// The statements of the transaction that is open.
    pub statements: Grown<Stmt>,
    /// The class lists that are ended.
    pub lists: Grown<ClassParts>,
    /// How many classes there are, those of the catalogue, of the lists and of the open one.
    pub classes: u32,
    /// The transactions that were submitted.
    pub submitted: Submitted,
    pub events: Grown<Event>,
}
