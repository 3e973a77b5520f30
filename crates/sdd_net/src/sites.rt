ghost use Rattle.std.specs.Prelude.{◌≡◌, ◌+◌, ◌*◌, ◌≤◌, ◌++◌, cond, Some, None, IfOk, OnOk};
ghost use Rattle.std.specs.List.{filter_map};
ghost use Rattle.sdd_base.specs.Sites as spec;
ghost use Rattle.sdd_net.specs.Nets as net;

use sdd_base::{DmNo, MAX_DMS, MAX_TMS, NoMemory, Site, TmNo};
use std::alloc::Global;

/// The sites of a network, in their order.
fn all_sites(alloc: Global, tms: u32, dms: u32) -> Result<Vec<Site>, NoMemory>
    requires tms { tms ≤ MAX_TMS }
    requires dms { dms ≤ MAX_DMS }
    ensures { IfOk result (λ all. all.items ≡ spec.sites tms dms) }
{
    let mut sites = vec![in alloc; Site::U]?;
    for n in 0..tms {
        sites.push(Site::T(TmNo(n as u8 + 1)))?;
    }
    for n in 0..dms {
        sites.push(Site::D(DmNo(n as u8 + 1)))?;
    }
    Ok(sites)
}

/// Whether there is a link between sites of these kinds.
fn are_linked(a: Site, b: Site) -> bool
    ensures { result ≡ spec.are_linked a b }
{
    match (a, b) {
        (Site::U, Site::T(_) | Site::D(_)) => true,
        (Site::T(_), Site::U | Site::D(_)) => true,
        (Site::D(_), Site::U | Site::T(_)) => true,
        _ => false,
    }
}

fn is_site(tms: u32, dms: u32, site: Site) -> bool
    ensures { result ≡ net.is_site tms dms site }
{
    match site {
        Site::U => true,
        Site::T(n) => 1 <= n.0 && n.0 as u32 <= tms,
        Site::D(n) => 1 <= n.0 && n.0 as u32 <= dms,
    }
}

/// Whether there is a link from one site to another.
pub fn is_link(tms: u32, dms: u32, from: Site, to: Site) -> bool
    ensures { result ≡ net.is_link tms dms from to }
{
    is_site(tms, dms, from) && is_site(tms, dms, to) && are_linked(from, to)
}

/// Adds the links from one site to those among the sites.
fn add_links(links: &mut Vec<(Site, Site)>, from: Site, sites: &[Site]) -> Result<(), NoMemory>
    ensures { OnOk result (
        links.new.items
        ≡ links.old.items
        ++ filter_map (λ to. cond (spec.are_linked from to) (Some (from, to)) None) sites.now) }
{
    for to in sites {
        if are_linked(from, *to) {
            links.push((from, *to))?;
        }
    }
    Ok(())
}

/// The links of a network, by the order of the site they come from and then of the site they go to.
#[tactic(auto, using(crate::proofs::SiteLists::all_links_more))]
pub fn all_links(alloc: Global, tms: u32, dms: u32) -> Result<Vec<(Site, Site)>, NoMemory>
    requires tms { tms ≤ MAX_TMS }
    requires dms { dms ≤ MAX_DMS }
    ensures { IfOk result (λ all. all.items ≡ spec.links tms dms) }
{
    let sites = all_sites(alloc, tms, dms)?;
    let mut links = Vec::new(alloc);
    for from in &sites {
        add_links(&mut links, *from, &sites)?;
    }
    Ok(links)
}

/// The place of a site in the order of sites, counted from 0.
fn place_of(tms: u32, site: Site) -> usize
    ensures { result ≡ net.place_of tms site }
{
    match site {
        Site::U => 0,
        Site::T(n) => n.0 as usize,
        Site::D(n) => tms as usize + n.0 as usize,
    }
}

/// How many sites there are.
fn site_count(tms: u32, dms: u32) -> usize
    ensures { result ≡ net.site_count tms dms }
{
    1 + tms as usize + dms as usize
}

/// How many pairs of sites there are.
pub fn pair_count(tms: u32, dms: u32) -> usize
    requires tms { tms ≤ MAX_TMS }
    requires dms { dms ≤ MAX_DMS }
    ensures { result ≡ net.site_count tms dms * net.site_count tms dms }
{
    site_count(tms, dms) * site_count(tms, dms)
}

/// The place of the direction from one site to another among all pairs of sites.
pub fn index_of(tms: u32, dms: u32, from: Site, to: Site) -> usize
    requires tms { tms ≤ MAX_TMS }
    requires dms { dms ≤ MAX_DMS }
    ensures { result ≡ net.index_of tms dms from to }
{
    place_of(tms, from) * site_count(tms, dms) + place_of(tms, to)
}
