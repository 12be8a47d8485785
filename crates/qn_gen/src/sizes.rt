//! The sizes: the number of sites, and the charges and dimensions of the links between them.

ghost use Rattle.std.specs.Prelude.{◌≡◌, ◌≤◌};
ghost use Rattle.qn_gen.specs.Workload.{greatest as greatest_on, least as least_on, link_dim as dim_on, particles as half_of, site_count as count_for};

/// The number of sites, from 8 to 32.
pub(crate) fn site_count(seed: u32) -> u32
    ensures value { result ≡ count_for seed }
    ensures some { 8 ≤ result }
    ensures few { result ≤ 32 }
{
    8 + seed % 25
}

/// The number of fermions on so many sites: half of them, rounded down.
pub(crate) fn particles(count: u32) -> u32
    ensures { result ≡ half_of count }
{
    count / 2
}

/// The dimension of the sectors of the links.
pub(crate) fn link_dim(count: u32) -> u32
    ensures { result ≡ dim_on count }
{
    if count <= 12 {
        8
    } else if count <= 16 {
        4
    } else if count <= 22 {
        2
    } else {
        1
    }
}

/// The least charge on the link right of a site, from 1.
pub(crate) fn least(count: u32, site: u32) -> u32
    requires { site ≤ count }
    ensures { result ≡ least_on count site }
{
    let room = count - particles(count);
    site.saturating_sub(room).max((site / 2).saturating_sub(1))
}

/// The greatest charge on the link right of a site, from 1.
pub(crate) fn greatest(count: u32, site: u32) -> u32
    requires { site ≤ count }
    ensures { result ≡ greatest_on count site }
{
    site.min(particles(count)).min(site / 2 + 1)
}
