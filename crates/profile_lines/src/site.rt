//! Sites, slots and objects by name.
ghost use Rattle.std.specs.Prelude.{◌≡◌, IfOk};
ghost use Rattle.profile_lines.specs.Cuts.{map_reading};
ghost use Rattle.profile_lines.specs.Names.{site_of, object_of, slot_of};

use crate::cut::{both, cut};
use crate::name::global_name;
use crate::number::number;
use crate::profile::{ObjectName, ProfileCause, SiteName};
use pv_base::want::Memory;
use std::alloc::Global;

/// `@f:12`.
pub fn site(alloc: Global, text: &[u8]) -> Result<Result<SiteName, ProfileCause>, Memory>
    ensures { IfOk result (λ site. site ≡ site_of text.now) }
{
    let Some((function, place)) = cut(b':', text) else {
        return Ok(Err(ProfileCause::Word));
    };
    match both(global_name(alloc, function)?, number(place)) {
        Ok((function, place)) => Ok(Ok(SiteName { function, place })),
        Err(cause) => Ok(Err(cause)),
    }
}

/// `@g` or `@f:12`.
pub fn object(alloc: Global, text: &[u8]) -> Result<Result<ObjectName, ProfileCause>, Memory>
    ensures { IfOk result (λ object. object ≡ object_of text.now) }
{
    match cut(b':', text) {
        Some(_) => match site(alloc, text)? {
            Ok(site) => Ok(Ok(ObjectName::At(site))),
            Err(cause) => Ok(Err(cause)),
        },
        None => match global_name(alloc, text)? {
            Ok(name) => Ok(Ok(ObjectName::Global(name))),
            Err(cause) => Ok(Err(cause)),
        },
    }
}

/// `@f:12/0`.
pub fn slot(alloc: Global, text: &[u8]) -> Result<Result<(SiteName, u64), ProfileCause>, Memory>
    ensures { IfOk result (λ slot. slot ≡ slot_of text.now) }
{
    let Some((at, slot)) = cut(b'/', text) else {
        return Ok(Err(ProfileCause::Word));
    };
    Ok(both(site(alloc, at)?, number(slot)))
}
