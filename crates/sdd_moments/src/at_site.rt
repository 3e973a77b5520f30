//! What is kept of the parts that belong to one site.
use sdd_progress::Site;
use std::marker::Model;

/// The parts of a moment that belong to a site. Contracts see the site, and the list of the parts.
#[derive(Drop)]
pub struct AtSite<T> {
    pub(crate) at: Site,
    pub(crate) parts: Vec<T>,
}

impl<T> Model for AtSite<T> {
    ghost use Rattle.std.specs.Prelude.{List};
    ghost use Rattle.sdd_progress.specs.obligations.All.{Site};

    ghost Value = { Site × List T };

    ghost view = { λ x. (x.at, x.parts.items) };
}
