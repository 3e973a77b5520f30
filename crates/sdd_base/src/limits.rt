/// The most transaction modules of a catalogue.
pub const MAX_TMS: u32 = 16;

/// The most data modules of a catalogue.
pub const MAX_DMS: u32 = 16;

/// The most relations of a catalogue.
pub const MAX_RELATIONS: usize = 64;

/// The most columns of a relation.
pub const MAX_COLUMNS: usize = 16;

/// The most fragments of a catalogue.
pub const MAX_FRAGMENTS: usize = 256;

/// The most classes of a catalogue.
pub const MAX_CLASSES: usize = 64;

/// The most fragments that a class reads.
pub const MAX_READS: usize = 32;

/// The most bytes of a catalogue's file: 1 MiB.
pub const MAX_CATALOGUE_BYTES: usize = 1_048_576;

/// The most bytes of a name.
pub const MAX_NAME_BYTES: usize = 32;

/// The most bytes of a text of a column.
pub const MAX_TEXT_BYTES: usize = 255;

/// The most bytes of a workload's file: 64 MiB.
pub const MAX_WORKLOAD_BYTES: usize = 67_108_864;

/// The most initial rows of a workload and statements that put a row, together.
pub const MAX_ROWS: usize = 65_536;

/// The most transactions of a workload.
pub const MAX_TXNS: usize = 2_048;

/// The most statements of a transaction.
pub const MAX_STATEMENTS: usize = 32;

/// The most relations that a query names, a relation that it names twice counted twice.
pub const MAX_USES: usize = 6;

/// The most conditions of a statement.
pub const MAX_CONDITIONS: usize = 16;

/// The most columns that a query lists.
pub const MAX_OUTPUT_COLUMNS: usize = 16;

/// The most columns that an update assigns.
pub const MAX_ASSIGNMENTS: usize = 16;

/// The most rows of the answers of all queries of a transaction together.
pub const MAX_REPLY_ROWS: usize = 4_096;

/// The most events of a workload's schedule, a settle counted once.
pub const MAX_EVENTS: usize = 262_144;

/// The greatest place of a packet in a flight that an event names, counted from 1.
pub const MAX_PLACE: u32 = 1_048_576;

/// The most clock ticks of one event.
pub const MAX_TICKS: u32 = 1_048_576;

/// The most events of a run, those inside a settle counted.
pub const MAX_RUN_EVENTS: u64 = 4_294_967_295;

/// The most messages of a run on one link.
pub const MAX_LINK_MESSAGES: u64 = 4_294_967_295;
