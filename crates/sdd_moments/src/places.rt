//! The sites of a network, in their order, and between which of them links are.
ghost use Rattle.std.specs.Prelude.{◌≡◌, ◌≤◌, IfOk};
ghost use Rattle.sdd_progress.specs.obligations.net.Nets.{place_of};
ghost use Rattle.sdd_progress.specs.obligations.All.{MAX_DMS, MAX_TMS, are_linked as are_linked_by, same_site, sites};

use sdd_progress::{DmNo, NoMemory, Site, TmNo};
use std::alloc::Global;

/// Whether two sites are the same. Takes no memory.
pub fn is_same(one: Site, other: Site) -> bool
    ensures { result ≡ same_site one other }
{
    match (one, other) {
        (Site::U, Site::U) => true,
        (Site::T(one), Site::T(other)) => one.0 == other.0,
        (Site::D(one), Site::D(other)) => one.0 == other.0,
        _ => false,
    }
}

/// The place of a site in the order of sites, counted from 0, where there are so many transaction
/// modules.
pub(crate) fn place_of(tms: u32, at: Site) -> usize
    ensures { result ≡ place_of tms at }
{
    match at {
        Site::U => 0,
        Site::T(tm) => tm.0 as usize,
        Site::D(dm) => tms as usize + dm.0 as usize,
    }
}

/// The sites of a network with so many transaction modules and data modules, in their order: U, the
/// transaction modules from 1 on, the data modules from 1 on. Out of memory is its one error.
pub fn all_sites(alloc: Global, tms: u32, dms: u32) -> Result<Vec<Site>, NoMemory>
    requires tms { tms ≤ MAX_TMS }
    requires dms { dms ≤ MAX_DMS }
    ensures { IfOk result (λ all. all.items ≡ sites tms dms) }
{
    let mut sites = vec![in alloc; Site::U]?;
    for n in 0..tms {
        sites.push(Site::T(TmNo(n as u8 + 1)))?;
    }
    for n in 0..dms {
        sites.push(Site::D(DmNo(n as u8 + 1)))?;
    }
    Ok(sites)
}

/// Whether there is a link between sites of these kinds.
pub(crate) fn are_linked(a: Site, b: Site) -> bool
    ensures { result ≡ are_linked_by a b }
{
    match (a, b) {
        (Site::U, Site::T(_) | Site::D(_)) => true,
        (Site::T(_), Site::U | Site::D(_)) => true,
        (Site::D(_), Site::U | Site::T(_)) => true,
        _ => false,
    }
}
