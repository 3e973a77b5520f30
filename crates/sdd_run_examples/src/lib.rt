//! Worked instances of what laws and the clauses of a report ask and say: a class that is free beside a cycle,
//! two modules that applied alike what changes one fragment and nothing else, an attempt that is disturbed and
//! one that isn't. A definition that said more or less than it should is refused by one of them. It has
//! no code and no layer above.
#![tactic(auto)]

mod law;

pub use law::{
    law_answered_within, law_applied_alike, law_free_beside_a_cycle, law_submitted_before,
    law_undisturbed,
};
