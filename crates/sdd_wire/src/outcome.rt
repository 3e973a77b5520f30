use crate::msg::Msg;
use sdd_base::{Listed, Site};
use sdd_history::Recs;

/// Messages with the sites to which they go, in the order in which they are sent.
pub type Outs = Listed<(Site, Msg)>;

/// What a module sends and what it records in one call, each in its order.
#[derive(Drop)]
pub struct Outcome {
    pub out: Outs,
    pub recs: Recs,
}
