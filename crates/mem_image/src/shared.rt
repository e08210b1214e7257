//! What workers may send each other and share of a memory.

use crate::image::Image;
use crate::object::{Byte, Object, Pointer};
use crate::word::Word;
use pv_base::shared::may_be_shared;

/// A memory, its objects and what they hold may be shared.
pub fn memories_may_be_shared() {
    may_be_shared::<Image>();
    may_be_shared::<Object>();
    may_be_shared::<Byte>();
    may_be_shared::<Pointer>();
    may_be_shared::<Word>();
}
