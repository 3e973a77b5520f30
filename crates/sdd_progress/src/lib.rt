//! Progress: every run ends, quiet means finished, who waits and why, few attempts are rejected, and
//! one class list follows the other.
//!
//! The one contract to the layer above, in seven parts.
//!
//! - On every lawful log a round has an event, so that there are no more rounds than marks, and one
//!   (`law_rounds_end`); once a settle has ended, nothing is in flight and everything is acknowledged
//!   (`law_quiet_after_settle`). Whatever is given, where its events submit each transaction at most
//!   once, it has a complete log, or the limit ends it (`law_run_ends`); so a settle ends, and leaves
//!   the links quiet where the limit doesn't end the run (`law_settle_ends`).
//! - When a READ waits at a data module, is answered or is rejected; that no ring of waits comes about;
//!   and what is known of free classes. First what stands at the heads of pipes, how a READ began to
//!   wait, and where its conditions come from (`pipes_laws`); then why a READ is rejected
//!   (`rejections_laws`), that one whose conditions are met is answered before the event is over
//!   (`answers_laws`), and that classes on no simple cycle neither wait nor are rejected (`free_laws`).
//!   The graph of waits of a catalogue's protocol table fits its blocks (`law_table_fits`), so no READ
//!   of it waits for ever (`law_no_ring_waits`). `instances` has worked logs that meet what some of
//!   these laws ask.
//! - Where nothing is in flight or unacknowledged, nothing is due at a site and no module is
//!   down, every message is handed over and processed, no attempt is under way, no transaction is
//!   queued, and every transaction that was submitted is committed (`law_finished`,
//!   `law_committed`); then each copy is what a serial run leaves (`law_copies`). Such is every log
//!   between events at which the links are quiet (`law_resting`), and every complete one after a
//!   settle (`law_settled`).
//! - Where modules are down, a transaction of a declared class commits unless a module is down that
//!   its class needs, itself or through the classes that it waits for, or an undeclared transaction isn't
//!   done; and its changes are applied but where such a module is down (`law_outage`). An undeclared one
//!   that isn't committed hangs on a module that is down (`law_hangs_on`).
//! - A transaction's rejected attempts are at most the Commits of other transactions
//!   (`law_few_rejected`), so a run has at most the square of their number of attempts
//!   (`law_few_attempts`).
//! - From its `down` to its `up` a data module stays as it is, and a transaction module neither gets a
//!   message nor does anything (`law_still_while_down`).
//! - A log may put any number of class lists in force. If each is an era of the catalogue, and no
//!   module was down where one was put in force, then its history keeps all laws, has no cycle
//!   and has a serial order (`law_lawful`), and few attempts are rejected
//!   (`law_few_attempts_across_lists`).
#![tactic(auto)]

pub mod answers_laws;
mod down_law;
mod ending_law;
mod few_rejected_law;
mod few_rejected_worked;
pub mod free_laws;
pub mod instances;
mod law;
mod outage_law;
mod parts;
pub mod pipes_laws;
mod quiet_law;
pub mod rejections_laws;
mod rounds_law;
mod succession_law;
mod worked;

pub use down_law::law_still_while_down;
pub use ending_law::{law_run_ends, law_settle_ends};
pub use few_rejected_law::{law_few_attempts, law_few_rejected, law_rejects};
pub use few_rejected_worked::law_one_rejected;
pub use law::{
    law_committed, law_copies, law_eras_of_log, law_finished, law_idle_at_redeclares,
    law_none_left, law_resting, law_settled,
};
pub use outage_law::{law_hangs_on, law_outage};
pub use parts::{law_class_zero, law_exchanges, law_handed, law_none_waits, law_unanswered};
pub use quiet_law::{
    law_diagonals_listed, law_no_path_to_writer, law_no_ring_waits, law_table_fits,
};
pub use rounds_law::{law_quiet_after_settle, law_rounds, law_rounds_end};
pub use succession_law::{law_few_attempts_across_lists, law_lawful, law_timely};
pub use worked::{law_all_lost, law_late_query, law_read_and_put};

// What lies below, for the crates above.
pub use sdd_obligations::{
    Catalogue, Change, ClassNo, Conds, Copies, DmNo, Event, FragNo, Listed, Msg, NoMemory, Packet,
    Packets, Pages, Parcel, Rec, Row, Site, Spelling, Table, TmNo, Ts, TxnNo, serial_order, table,
};
