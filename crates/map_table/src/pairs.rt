//! Where ascending sites and pairs begin that aren't below an address. No list is searched from its front.

ghost use Rattle.std.specs.Prelude.{◌≡◌, ℕ, ◌≤◌, IfSome, IfNone};
ghost use Rattle.map_table.specs.Groups.{has_site as has_site_of};
ghost use Rattle.map_table.specs.Pairs.{Ascend, entry_in, firsts, second_of};

use crate::group::Group;

/// The sites from the first on that isn't below an address.
fn sites_from(sites: &[u32], address: u32) -> &[u32]
    requires { Ascend 0 sites.now }
    ensures ascend { Ascend address result.now }
    ensures same { (len : ℕ) → has_site_of result.now (record { lo = address; len = len })
        ≡ has_site_of sites.now (record { lo = address; len = len }) }
{
    &sites[sites.partition_point(|site| *site < address)..]
}

/// Whether a site lies in a group.
pub fn has_site(sites: &[u32], group: Group) -> bool
    requires { Ascend 0 sites.now }
    ensures { result ≡ has_site_of sites.now group }
{
    let Some((site, _)) = sites_from(sites, group.lo).split_first() else {
        return false;
    };
    *site - group.lo < group.len
}

/// The pairs from the first on whose first part isn't below an address.
pub fn pairs_from(pairs: &[(u32, u32)], address: u32) -> &[(u32, u32)]
    requires { Ascend 0 (firsts pairs.now) }
    ensures ascend { Ascend address (firsts result.now) }
    ensures site { (len : ℕ) → has_site_of (firsts result.now) (record { lo = address; len = len })
        ≡ has_site_of (firsts pairs.now) (record { lo = address; len = len }) }
    ensures same { (a : ℕ) → address ≤ a → second_of result.now a ≡ second_of pairs.now a }
{
    &pairs[pairs.partition_point(|pair| pair.0 < address)..]
}

/// Whether the first part of a pair lies in a group.
pub fn has_pair(pairs: &[(u32, u32)], group: Group) -> bool
    requires { Ascend 0 (firsts pairs.now) }
    ensures { result ≡ has_site_of (firsts pairs.now) group }
{
    let Some((pair, _)) = pairs_from(pairs, group.lo).split_first() else {
        return false;
    };
    pair.0 - group.lo < group.len
}
