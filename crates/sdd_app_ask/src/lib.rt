//! The call of the program for questions, over a shelf of files and two sinks that are handed in.
//!
//! `run_ask` is the one contract to the layer above. Its words are a question and the names of the files
//! that it is about; what they ask for is defined in `specs/Answer.antt`: an answer for the catalogue
//! alone (`sdd_ask`), for the transactions of the workload (`sdd_robust_answer`), or the certificate of a
//! report on it (`sdd_certify`). How a call ends, and how its first files are read and judged, is
//! `sdd_shell`'s.
#![tactic(auto)]

mod asked;
mod asking;
mod certifying;
mod questions;
mod transactions;

pub use asked::Question;
pub use asking::run_ask;
