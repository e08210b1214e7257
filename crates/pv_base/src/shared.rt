//! What workers may send each other and share.

use crate::bytes::Bytes;
use crate::list::List;
use crate::name::Name;
use crate::place::{AllocSite, Place, Site};

/// Stands only where a type may be sent to another thread, and be read by several at once.
pub fn may_be_shared<T: Send + Sync>() {}

/// A list may be shared where its items may be.
pub fn a_list_may_be_shared<T: Send + Sync>() {
    may_be_shared::<List<T>>();
}

/// Bytes, names and places may be shared.
pub fn bytes_and_places_may_be_shared() {
    may_be_shared::<Bytes>();
    may_be_shared::<Name>();
    may_be_shared::<Site>();
    may_be_shared::<AllocSite>();
    may_be_shared::<Place>();
}
