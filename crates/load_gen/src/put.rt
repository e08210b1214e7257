//! Numbers in a text, and the numbers that are drawn for it.
ghost use Rattle.std.specs.Prelude.{◌≡◌, ◌++◌, OnOk, decimal};
ghost use Rattle.std.specs.Fmt.{signed_decimal};
ghost use Rattle.load_gen.specs.Numbers.{next, as_signed};

use itoa::Buffer;
use pv_base::bytes::Bytes;
use pv_base::want::Memory;

/// How many functions, blocks that call them, and places of the table there are.
pub(crate) const COUNT: u64 = 64;

pub(crate) fn put_number(to: &mut Bytes, n: u64) -> Result<(), Memory>
    ensures { OnOk result (to.new ≡ to.old ++ decimal n) }
{
    let mut buffer = Buffer::new();
    to.append(buffer.format(n).as_bytes())
}

fn put_signed(to: &mut Bytes, n: i64) -> Result<(), Memory>
    ensures { OnOk result (to.new ≡ to.old ++ signed_decimal n) }
{
    let mut buffer = Buffer::new();
    to.append(buffer.format(n).as_bytes())
}

/// The bits of an integer as a signed number.
pub(crate) fn put_bits(to: &mut Bytes, bits: u32) -> Result<(), Memory>
    ensures { OnOk result (to.new ≡ to.old ++ signed_decimal (as_signed bits)) }
{
    put_signed(to, as_signed(bits))
}

fn as_signed(bits: u32) -> i64
    ensures { result ≡ as_signed bits }
{
    if bits < 2_147_483_648 {
        i64::from(bits)
    } else {
        i64::from(bits) - 4_294_967_296
    }
}

/// The number that is drawn after another one.
pub(crate) fn next(x: u64) -> u64
    ensures { result ≡ next x }
{
    x.wrapping_mul(6_364_136_223_846_793_005)
        .wrapping_add(1_442_695_040_888_963_407)
}
