//! The shell of a program of this repository: the system's files and streams, the statuses by which a
//! call ends, and its first files.
//!
//! What the layers above get: `HostShelf` and `HostSink` are the files and streams of the system, which
//! the programs hand in. Each byte that a call reads was unread in the file that is asked for, and each
//! that it writes, and no other, goes to the stream; what the system's files hold no clause can say.
//! `accepted_catalogue` and `accepted_workload` read a file of the call and judge it. `Status` says how a
//! call ended, `specs/Verdict.antt` what it came to; `end_call` writes the text or the status's line,
//! and `exit_code` is the number that the process ends with. `EndsAs` of `specs/Calls.antt` is the one
//! contract of a program's call, by what `Call` says of the program.
#![tactic(auto)]

mod catalogue_file;
mod ending;
mod exit;
mod host_shelf;
mod host_sink;
mod status;
mod telling;
mod workload_file;

pub use catalogue_file::{accepted_catalogue, read_named};
pub use ending::end_call;
pub use exit::{end_out_of_memory, exit_code};
pub use host_shelf::HostShelf;
pub use host_sink::HostSink;
pub use status::Status;
pub use workload_file::accepted_workload;
