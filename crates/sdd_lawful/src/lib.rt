//! The history of every permitted log keeps the laws of histories.
//!
//! The one contract to the layer above: of a sound given and a permitted log the records of the log
//! keep the laws (`law_starts` to `law_undeclared`); so no cycle of precedence is among its committed
//! transactions (`law_ordered`, `law_one_list`), and one plain database gives their replies along a
//! serial order (`law_replayed`). `law_places` says which entry of the log made which record.
#![tactic(auto)]

mod kept;
mod law;

pub use kept::{law_few, law_kept, law_lawful, law_named, law_one_list, law_ordered, law_replayed};
pub use law::{
    law_answers, law_applies, law_conditions, law_one_era, law_places, law_rejections, law_starts,
    law_undeclared,
};
