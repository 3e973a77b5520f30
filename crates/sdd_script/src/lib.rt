//! The workload file: its reader, which returns the first fault, and its writer.
//!
//! What the layer above gets: `read_workload` gives exactly what `workload` of `specs/Walk.antt` makes
//! of the bytes, that is the workload or its first fault, and `write_workload` gives `spelling` of
//! `specs/Spelling.antt`, the one spelling of a workload. `specs/LineRules.antt` has the rules of a
//! line in the order in which they are judged, `specs/ClassLists.antt` those of class lists,
//! `specs/Redeclaring.antt` where a list may be put in force, and `specs/Valid.antt` says which
//! workloads a catalogue allows.
#![tactic(auto)]

mod class_lists;
mod columns;
mod deletes;
mod fault;
mod few;
mod found;
mod grown;
mod keyword;
mod laws;
mod limits;
mod names;
mod naming;
mod occurrences;
mod open_list;
mod place;
mod queries;
mod reader;
mod redeclaring;
mod state;
mod statements;
mod submitted;
mod updates;
mod values;
mod walk;
mod workload;
mod write_lines;
mod write_lists;
mod write_words;

pub use fault::{Counts, WorkError, WorkFault, WorkRule};
pub use laws::law_round_trip;
pub use limits::MAX_LISTS;
pub use walk::read_workload;
pub use workload::{ClassLists, StartRows, Txns, Workload};
pub use write_lines::write_workload;

// What lies below, for the crates above.
pub use sdd_lang::{
    Assign, Bytes, CatError, Catalogue, Change, Changes, ClassNo, ClassPart, ClassParts,
    ColumnPart, ColumnParts, Cond, Condition, Conditions, Conds, CopyNos, DmNo, Event, Events,
    FragNo, FragmentPart, FragmentParts, Kind, Listed, MAX_EVENTS, MAX_WORKLOAD_BYTES, Name, Names,
    NoMemory, Op, Parcel, Parts, ReadPart, ReadParts, Ref, Refs, RelNo, RelationPart,
    RelationParts, Rels, Reply, Row, Sets, Site, Statements, Stmt, SureSink, Text, TmNo, Ts, Txn,
    TxnNo, Value, class_for, fits, write_set, write_text,
};
pub use sdd_words::{
    Token, Tokens, are_sound, is_free, next_line, number_in, put, put_count, put_value, put_values,
    text_of, words_of,
};
