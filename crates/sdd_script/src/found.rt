use sdd_lang::{Kind, Ref};

/// A column of a use, and its kind.
#[derive(Clone, Copy)]
pub struct Found {
    pub at: Ref,
    pub kind: Kind,
}
