//! The running world: the modules of all sites and the network between them, driven by events.
//!
//! The one contract to the layer above: a world represents the complete lawful log of the events
//! that it was given, one by one in place (`add_event`; a settle or a redeclare round by round:
//! `begin_rounds`, `next_round`, `in_round`, `end_redeclare`), or the call ends it exactly where the
//! limit ends that log. What it tells is what that log says: its records, modules and links, how a
//! site has a transaction (`standing`), what a READ waits for at a data module (`waits`), and the
//! copies there (`copies`). What `sites`, `mail`, `is_down` and `count_handed` tell holds between any
//! two events, also within a round.
//!
//! The modules of all sites and the network between them are those of `sdd_sites`. What is told of a
//! world at its end, the copies of all modules and what is pending, stands in `sdd_schedule`.
#![tactic(auto)]

mod readers;
mod redeclaring;
mod turns;
mod world;

pub use world::World;

// What lies below, for the crates above.
pub use sdd_base::{ClassNo, DmNo, Event, FragNo, Listed, NoMemory, RowList, Site, Ts, TxnNo};
pub use sdd_catalog::Catalogue;
pub use sdd_history::Rec;
pub use sdd_sites::{
    Answer, Asked, ClassNos, ClassRun, Copies, DataModule, Line, Standing, Table, TxnModule,
    UModule, WorldEnd, data_modules, home,
};
