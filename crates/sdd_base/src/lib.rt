//! Values, numbers, clocks and the outside: what every other crate of the workspace stands on.
#![tactic(auto)]

mod change;
mod clock;
mod condition;
mod event;
mod exact;
mod failures;
mod files;
mod limits;
mod listed;
mod memory_shelf;
mod memory_sink;
mod name;
mod no_memory;
mod number;
mod open_files;
mod page;
mod pages;
mod parcel;
mod reading;
mod reply;
mod restriction;
mod shared;
mod shelf;
mod sink;
mod site;
mod text;
mod usage;
mod value;
mod writing;

pub use change::{Change, Changes};
pub use clock::Clock;
pub use condition::{Cond, Conds};
pub use event::{Event, Events};
pub use exact::{Exact, is_same};
pub use files::{CallNos, Files, ShelfFile};
pub use limits::{
    MAX_ASSIGNMENTS, MAX_CATALOGUE_BYTES, MAX_CLASSES, MAX_COLUMNS, MAX_CONDITIONS, MAX_DMS,
    MAX_EVENTS, MAX_FRAGMENTS, MAX_LINK_MESSAGES, MAX_NAME_BYTES, MAX_OUTPUT_COLUMNS, MAX_PLACE,
    MAX_READS, MAX_RELATIONS, MAX_REPLY_ROWS, MAX_ROWS, MAX_RUN_EVENTS, MAX_STATEMENTS,
    MAX_TEXT_BYTES, MAX_TICKS, MAX_TMS, MAX_TXNS, MAX_USES, MAX_WORKLOAD_BYTES,
};
pub use listed::{Bytes, Listed};
pub use memory_shelf::{MemShelf, SureShelf};
pub use memory_sink::{MemSink, SureSink};
pub use name::Name;
pub use no_memory::NoMemory;
pub use number::{ClassNo, DmNo, FragNo, RelNo, TmNo, Ts, TxnNo};
pub use page::Page;
pub use pages::{Pages, write_pages};
pub use parcel::Parcel;
pub use reading::{ReadError, read_file};
pub use reply::Reply;
pub use restriction::{Op, Restriction, Restrictions};
pub use shared::Shared;
pub use shelf::{Failed, FileNo, Shelf};
pub use sink::Sink;
pub use site::Site;
pub use text::Text;
pub use usage::{Frags, Use, Uses};
pub use value::{Answer, AnswerRow, Answers, Row, RowList, Value};
pub use writing::write_text;
