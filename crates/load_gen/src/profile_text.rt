//! The text of the profile.
ghost use Rattle.std.specs.Prelude.{◌≡◌, ◌++◌, OnOk};
ghost use Rattle.load_gen.specs.Numbers.{each};
ghost use Rattle.load_gen.specs.Profile.{line_text, profile_text};

use crate::put::{COUNT, put_number};
use pv_base::bytes::Bytes;
use pv_base::want::Memory;

pub(crate) fn put_profile(to: &mut Bytes) -> Result<(), Memory>
    ensures { OnOk result (to.new ≡ to.old ++ profile_text) }
{
    to.append(b"privateer-profile 1\nloop @main %head\nblock %head\nblock %body\n")?;
    put_lines(to)?;
    to.append(
        b"block %join\nphi %i step 1\nuse @main:136/0 @table\nuse @main:137/0 @table\nuse @main:138/0 @sum\nuse @main:140/0 @sum\nend\n",
    )
}

fn put_lines(to: &mut Bytes) -> Result<(), Memory>
    ensures { OnOk result (to.new ≡ to.old ++ each line_text 64) }
{
    for j in 0..COUNT {
        put_line(to, j)?;
    }
    Ok(())
}

fn put_line(to: &mut Bytes, j: u64) -> Result<(), Memory>
    ensures { OnOk result (to.new ≡ to.old ++ line_text j) }
{
    to.append(b"block %b")?;
    put_number(to, j)?;
    to.append(b"\n")
}
