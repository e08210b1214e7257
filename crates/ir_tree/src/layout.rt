//! The layout of a type: its size and alignment, with natural alignment as in the LLVM Language Reference.
ghost use Rattle.std.specs.Prelude.{◌≡◌, ◌<◌, ◌≤◌, ◌+◌, ◌*◌, ◌^◌, IfSome};
ghost use Rattle.ir_tree.specs.Layouts.{sized, round_up, int_layout, array_layout, field_align, with_field, joined};
ghost use Rattle.ir_tree.specs.Bounds.{IsLayout};

/// Size and alignment in bytes. The alignment is 1, 2, 4 or 8, and the size below 2^63.
#[derive(Clone, Copy, Debug, PartialEq, Eq)]
pub struct Layout {
    pub size: u64,
    pub align: u64,
}

/// A layout, where the size is below 2^63.
#[tactic(auto, unfolding(crate::specs::Layouts::sized))]
pub(crate) fn sized(size: u128, align: u64) -> Option<Layout>
    ensures { result ≡ sized size align }
{
    if size < 1 << 63 {
        Some(Layout {
            size: size as u64,
            align,
        })
    } else {
        None
    }
}

/// The next multiple of an alignment.
#[tactic(auto, unfolding(crate::specs::Layouts::round_up))]
pub(crate) fn round_up(at: u64, align: u64) -> u64
    requires at { at < 2 ^ 63 }
    requires least { 0 < align }
    requires most { align ≤ 8 }
    ensures { result ≡ round_up at align }
{
    (at + (align - 1)) / align * align
}

pub(crate) fn int_layout(width: u32) -> Option<Layout>
    ensures { result ≡ int_layout width }
{
    match width {
        1 | 8 => Some(Layout { size: 1, align: 1 }),
        16 => Some(Layout { size: 2, align: 2 }),
        32 => Some(Layout { size: 4, align: 4 }),
        64 => Some(Layout { size: 8, align: 8 }),
        _ => None,
    }
}

pub(crate) fn array_layout(count: u128, of: Layout) -> Option<Layout>
    ensures { result ≡ sized (count * of.size) of.align }
{
    match count.checked_mul(of.size as u128) {
        Some(size) => sized(size, of.align),
        None => None,
    }
}

pub(crate) fn field_align(packed: bool, of: Layout) -> u64
    ensures { result ≡ field_align packed of }
{
    if packed { 1 } else { of.align }
}

/// What is laid out so far, with one more field.
pub(crate) fn with_field(packed: bool, so: Layout, of: Layout) -> Option<Layout>
    requires so { IsLayout so }
    requires of { IsLayout of }
    ensures { result ≡ with_field packed so of }
{
    let align = field_align(packed, of);
    let place = round_up(so.size, align);
    sized(place as u128 + of.size as u128, so.align.max(align))
}

/// The same where a layout may be missing.
pub(crate) fn joined(packed: bool, so: Option<Layout>, of: Option<Layout>) -> Option<Layout>
    requires so { IfSome so IsLayout }
    requires of { IfSome of IsLayout }
    ensures { result ≡ joined packed so of }
{
    match so {
        Some(so) => match of {
            Some(of) => with_field(packed, so, of),
            None => None,
        },
        None => None,
    }
}

/// A struct, once its fields are laid out.
pub(crate) fn padded(so: Layout) -> Option<Layout>
    requires { IsLayout so }
    ensures { result ≡ sized (round_up so.size so.align) so.align }
{
    sized(round_up(so.size, so.align) as u128, so.align)
}
