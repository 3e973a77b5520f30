//! Transactions: what they are, what they mean, and in which class they run.
//!
//! The one contract to the layer above: `uses`, `read_set`, `write_set` and `class_for` are those of
//! `specs/Uses.antt` and `specs/Classes.antt`; `effect_over` is the plain meaning of
//! `specs/Effect.antt` over any `Source` of rows (`specs/Source.antt`); and the laws of `laws.rt`
//! hold of these definitions.
#![tactic(auto)]

mod assign;
mod classes;
mod condition;
mod effect;
mod fitting;
mod frag_set;
mod keys;
mod laws;
mod over;
mod pending;
mod replace;
mod run;
mod source;
mod statement;
mod touched;
mod transaction;
mod tuple;
mod usage;

pub use assign::{Assign, Sets};
pub use classes::{class_for, read_set, write_set};
pub use condition::{Condition, Conditions, Ref, Refs};
pub use effect::Effect;
pub use fitting::fits;
pub use keys::{Keys, allowed_keys};
pub use laws::{
    law_changes, law_puts_held, law_read_set_decides, law_rows_held, law_rows_make_database,
    law_stays_database,
};
pub use over::effect_over;
pub use replace::replace_columns;
pub use source::{Entries, Entry, Source};
pub use statement::{Rels, Statements, Stmt};
pub use transaction::Txn;
pub use tuple::{compare, copy_value, key_of, may_join, meets_all, project, value_at, value_in};
pub use usage::{restrictions_of, uses};

// What lies below, for the crates above.
pub use sdd_base::{
    Answer, AnswerRow, Bytes, Change, Changes, ClassNo, Clock, Cond, Conds, DmNo, Event, Events,
    Failed, FileNo, FragNo, Frags, Listed, MAX_ASSIGNMENTS, MAX_CATALOGUE_BYTES, MAX_CLASSES,
    MAX_CONDITIONS, MAX_EVENTS, MAX_OUTPUT_COLUMNS, MAX_PLACE, MAX_READS, MAX_REPLY_ROWS, MAX_ROWS,
    MAX_STATEMENTS, MAX_TICKS, MAX_TXNS, MAX_USES, MAX_WORKLOAD_BYTES, Name, NoMemory, Op, Pages,
    Parcel, ReadError, RelNo, Reply, Restriction, Row, RowList, Shelf, Sink, Site, SureSink, Text,
    TmNo, Ts, TxnNo, Use, Uses, Value, read_file, write_pages, write_text,
};
pub use sdd_catalog::{
    CatError, CatFault, CatRule, Catalogue, ClassPart, ClassParts, Column, ColumnPart, ColumnParts,
    CopyNos, Counted, FragmentPart, FragmentParts, Kind, Names, Part, Parts, ReadPart, ReadParts,
    Relation, RelationPart, RelationParts,
};
