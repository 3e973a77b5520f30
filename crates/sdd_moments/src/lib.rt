//! The links, queues and pipes of a world that carries out a schedule: what an event changed of them.
//!
//! The contract to the layer above: after each event `look_at_links`, `look_at_queues` and
//! `look_at_pipes` give the moments before and after it of the links, queues and pipes of which
//! something is reported, and keep what stands there now (`specs/Changes.antt`).
//!
//! What is kept is kept by numbers where a list is long; what an event changed is read from the world
//! after it. Looked at are the links of the sites that the event names or at which it lets something
//! be done (`Reach`), the pipes of the data modules to which messages were handed, and the queues,
//! where a transaction entered one or left it: by the log all others stay as they are
//! (`proofs/LinksKept.antt`, `PipesKept.antt`, `QueuesKept.antt`). These sites are found by their
//! places in the order of sites (`proofs/SitesPassed.antt`, `ModulesPassed.antt`). So an event costs
//! what it changes, and a look at the links and pipes of one or two sites; a step for each site only
//! where a transaction entered a queue or left one, or where a module comes up.
#![tactic(auto)]

mod at_site;
mod both;
mod on_links;
mod places;
mod queues;
mod reach;
mod waiting;
mod watched_link;
mod watched_pipe;

pub use at_site::AtSite;
pub use both::Both;
pub use on_links::{OnLinks, first_links, look_at_links};
pub use places::{all_sites, is_same};
pub use queues::{all_queues, have_moved, look_at_queues};
pub use reach::{Reach, home_in, reach_of};
pub use waiting::Purpose;
pub use watched_link::{Arrived, WatchedLink, is_reached};
pub use watched_pipe::{WatchedPipe, first_pipes, look_at_pipes};

// What lies below, for the crates above.
pub use sdd_progress::{
    Catalogue, Change, ClassNo, Conds, Copies, DmNo, Event, FragNo, Listed, NoMemory, Packet,
    Parcel, Rec, Row, Site, Spelling, Table, TmNo, Ts, TxnNo,
};
pub use sdd_schedule::{
    Answer, Asked, ClassList, ClassNos, ClassRun, DataModule, Line, Observer, Turn, TxnModule,
    UModule, World, WorldEnd, carry_out, copy_tables,
};
