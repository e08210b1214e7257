//! The names of the functions outside a module.
ghost use Rattle.std.specs.Prelude.{◌≡◌};
ghost use Rattle.seq_calls.specs.Names.{library, intrinsics, named, is_first_digit, is_digit, width_of, at_most_64, width_behind, extreme, known};

use pv_base::external::External;

/// The function of the C library of this name.
#[tactic(auto, unfolding(crate::specs::Names::named))]
fn library(name: &[u8]) -> Option<External>
    ensures { result ≡ named library name.now }
{
    if name == b"malloc".as_slice() {
        return Some(External::Malloc);
    }
    if name == b"calloc".as_slice() {
        return Some(External::Calloc);
    }
    if name == b"free".as_slice() {
        return Some(External::Free);
    }
    if name == b"putchar".as_slice() {
        return Some(External::Putchar);
    }
    if name == b"puts".as_slice() {
        return Some(External::Puts);
    }
    if name == b"getchar".as_slice() {
        return Some(External::Getchar);
    }
    if name == b"printf".as_slice() {
        return Some(External::Printf);
    }
    if name == b"exit".as_slice() {
        return Some(External::Exit);
    }
    if name == b"abort".as_slice() {
        return Some(External::Abort);
    }
    None
}

/// The intrinsic on memory of this name.
#[tactic(auto, unfolding(crate::specs::Names::named))]
fn intrinsic(name: &[u8]) -> Option<External>
    ensures { result ≡ named intrinsics name.now }
{
    if name == b"llvm.memcpy.p0.p0.i32".as_slice() {
        return Some(External::Memcpy(32));
    }
    if name == b"llvm.memcpy.p0.p0.i64".as_slice() {
        return Some(External::Memcpy(64));
    }
    if name == b"llvm.memmove.p0.p0.i32".as_slice() {
        return Some(External::Memmove(32));
    }
    if name == b"llvm.memmove.p0.p0.i64".as_slice() {
        return Some(External::Memmove(64));
    }
    if name == b"llvm.memset.p0.i32".as_slice() {
        return Some(External::Memset(32));
    }
    if name == b"llvm.memset.p0.i64".as_slice() {
        return Some(External::Memset(64));
    }
    if name == b"llvm.lifetime.start.p0".as_slice() {
        return Some(External::LifetimeStart);
    }
    if name == b"llvm.lifetime.end.p0".as_slice() {
        return Some(External::LifetimeEnd);
    }
    None
}

fn first_digit(byte: u8) -> bool
    ensures { result ≡ is_first_digit byte }
{
    b'1' <= byte && byte <= b'9'
}

fn digit(byte: u8) -> bool
    ensures { result ≡ is_digit byte }
{
    b'0' <= byte && byte <= b'9'
}

/// A width of 1 to 64 in decimal digits, without a leading zero.
#[tactic(auto, unfolding(crate::specs::Names::width_of))]
fn width_of(text: &[u8]) -> Option<u32>
    ensures { result ≡ width_of text.now }
{
    match text {
        [a] => {
            if first_digit(*a) {
                Some(u32::from(*a - b'0'))
            } else {
                None
            }
        }
        [a, b] => {
            if first_digit(*a) && digit(*b) {
                at_most_64(10 * u32::from(*a - b'0') + u32::from(*b - b'0'))
            } else {
                None
            }
        }
        _ => None,
    }
}

fn at_most_64(width: u32) -> Option<u32>
    ensures { result ≡ at_most_64 width }
{
    if width <= 64 { Some(width) } else { None }
}

/// The width that stands behind this front of a name.
#[tactic(auto, unfolding(crate::specs::Names::width_behind))]
fn width_behind(front: &[u8], name: &[u8]) -> Option<u32>
    ensures { result ≡ width_behind front.now name.now }
{
    if name.starts_with(front) {
        width_of(&name[front.len()..])
    } else {
        None
    }
}

/// The greater or the less of two integers of a width.
#[tactic(auto, unfolding(crate::specs::Names::extreme))]
fn extreme(name: &[u8]) -> Option<External>
    ensures { result ≡ extreme name.now }
{
    if let Some(width) = width_behind(b"llvm.smax.i", name) {
        return Some(External::Smax(width));
    }
    if let Some(width) = width_behind(b"llvm.smin.i", name) {
        return Some(External::Smin(width));
    }
    if let Some(width) = width_behind(b"llvm.umax.i", name) {
        return Some(External::Umax(width));
    }
    if let Some(width) = width_behind(b"llvm.umin.i", name) {
        return Some(External::Umin(width));
    }
    None
}

/// The external of this name, without the sign before it.
#[tactic(auto, unfolding(crate::specs::Names::known))]
pub fn known(name: &[u8]) -> Option<External>
    ensures { result ≡ known name.now }
{
    if let Some(found) = library(name) {
        return Some(found);
    }
    if let Some(found) = intrinsic(name) {
        return Some(found);
    }
    extreme(name)
}
