//! What a running world is made of: the modules of all sites, and the network between them.
//!
//! The one contract to the layer above: `Sites` hands each call to the module of one site and no
//! other, which then represents the log of that site, with what is due there (`Represent`), while
//! the others represent what they represented (`StayAtOthers`). `Mail` carries messages as the
//! bytes that spell them: what it holds and hands on is that of a network of messages (`Carries`),
//! and `send_all` puts what a module sends on its links, or ends where the limit ends it. `home`
//! gives the site of a transaction.
#![tactic(auto)]

mod ends;
mod homes;
mod mail;
mod making;
mod opening;
mod putting;
mod sites;

pub use ends::WorldEnd;
pub use homes::{home, home_in};
pub use mail::Mail;
pub use making::data_modules;
pub use putting::{record_all, send_all};
pub use sites::Sites;

// What lies below, for the crates above.
pub use sdd_attempt::{Answer, Line, Standing};
pub use sdd_copy::Copies;
pub use sdd_dm::{ClassNos, DataModule};
pub use sdd_protocol::Table;
pub use sdd_tm::{Asked, ClassRun, TxnModule};
pub use sdd_umod::UModule;
