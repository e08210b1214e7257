//! Objects of some sites that are alive.
ghost use Rattle.std.specs.Prelude.{◌≡◌, ◌<◌, ◌^◌, MatchOption, ⊤, Option};
ghost use Rattle.std.specs.List.{list_any};
ghost use Rattle.lifetime_check.specs.Alive.{same_site, short_from, left_of, one_more};

use mem_image::image::Image;
use pv_base::list::List;
use pv_base::place::AllocSite;

/// Objects that are left alive: the site of the one of least name, and how many there are, 1 at least.
#[derive(Clone, Copy, Debug, PartialEq, Eq)]
pub struct Left {
    pub site: AllocSite,
    pub count: u64,
}

/// The live objects from a name on whose site is in the list, which stands in any order; None where there is none. For each live
/// object from that name on it takes time logarithmic in the number of objects, and linear in the list.
pub fn left_alive(memory: &Image, from: u32, short: &List<AllocSite>) -> Option<Left>
    ensures { result ≡ left_of (short_from from short.now memory.now.objects) }
{
    let end = memory.next();
    let mut left = None;
    let mut name = from;
    while name < end {
        match memory.first_from(name) {
            None => return left,
            Some(object) => {
                if is_among(short.as_slice(), object.site) {
                    left = Some(with_one(left, object.site));
                }
                name = object.name + 1;
            }
        }
    }
    left
}

// Whether a site stands in a list.
fn is_among(sites: &[AllocSite], site: AllocSite) -> bool
    ensures { result ≡ list_any (same_site site) sites.now }
{
    sites.contains(&site)
}

// What is left with an object more, behind the others.
fn with_one(left: Option<Left>, site: AllocSite) -> Left
    requires { MatchOption left ⊤ (λ l. l.count < 2 ^ 31) }
    ensures { result ≡ one_more left site }
{
    match left {
        None => Left { site, count: 1 },
        Some(Left { site, count }) => Left {
            site,
            count: count + 1,
        },
    }
}
