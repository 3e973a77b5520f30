ghost use Rattle.std.specs.Prelude.{◌≡◌, ◌≤◌, map, IfOk};
ghost use Rattle.sdd_net.specs.Nets.{placed};

use crate::sites::index_of;
use sdd_base::{MAX_DMS, MAX_TMS, NoMemory, Site};
use std::alloc::Global;

/// A link, and where its channel and the channel back are among all pairs of sites.
#[derive(Clone, Copy)]
pub struct PlacedLink {
    pub from: Site,
    pub to: Site,
    pub there: usize,
    pub back: usize,
}

fn place(tms: u32, dms: u32, from: Site, to: Site) -> PlacedLink
    requires tms { tms ≤ MAX_TMS }
    requires dms { dms ≤ MAX_DMS }
    ensures { result ≡ placed tms dms (from, to) }
{
    PlacedLink {
        from,
        to,
        there: index_of(tms, dms, from, to),
        back: index_of(tms, dms, to, from),
    }
}

/// The links, each with its places.
pub fn place_all(
    alloc: Global,
    tms: u32,
    dms: u32,
    links: &[(Site, Site)],
) -> Result<Vec<PlacedLink>, NoMemory>
    requires tms { tms ≤ MAX_TMS }
    requires dms { dms ≤ MAX_DMS }
    ensures { IfOk result (λ all. all.items ≡ map (placed tms dms) links.now) }
{
    let mut all = Vec::new(alloc);
    for (from, to) in links {
        all.push(place(tms, dms, *from, *to))?;
    }
    Ok(all)
}
