//! The text of the function that loops.
ghost use Rattle.std.specs.Prelude.{◌≡◌, ◌++◌, ◌+◌, OnOk, decimal};
ghost use Rattle.load_gen.specs.Numbers.{each};
ghost use Rattle.load_gen.specs.Module.{head_text, case_text, body_text, block_text, arm_text, join_text, main_text};

use crate::put::{COUNT, put_bits, put_number};
use pv_base::bytes::Bytes;
use pv_base::want::Memory;

pub(crate) fn put_main(to: &mut Bytes, turns: u32) -> Result<(), Memory>
    ensures { OnOk result (to.new ≡ to.old ++ main_text turns) }
{
    put_head(to, turns)?;
    put_body(to)?;
    put_blocks(to)?;
    put_join(to)
}

fn put_head(to: &mut Bytes, turns: u32) -> Result<(), Memory>
    ensures { OnOk result (to.new ≡ to.old ++ head_text turns) }
{
    to.append(
        b"define i32 @main() {\nentry:\n  br label %head\nhead:\n  %i = phi i32 [ 0, %entry ], [ %i2, %join ]\n  %c = icmp ult i32 %i, ",
    )?;
    put_bits(to, turns)?;
    to.append(b"\n  br i1 %c, label %body, label %done\n")
}

fn put_body(to: &mut Bytes) -> Result<(), Memory>
    ensures { OnOk result (to.new ≡ to.old ++ body_text) }
{
    to.append(b"body:\n  %k = and i32 %i, 63\n  switch i32 %k, label %b0 [ ")?;
    put_cases(to)?;
    to.append(b"]\n")
}

fn put_cases(to: &mut Bytes) -> Result<(), Memory>
    ensures { OnOk result (to.new ≡ to.old ++ each (λ j. case_text (j + 1)) 63) }
{
    for j in 0..COUNT - 1 {
        put_case(to, j + 1)?;
    }
    Ok(())
}

fn put_case(to: &mut Bytes, j: u64) -> Result<(), Memory>
    ensures { OnOk result (to.new ≡ to.old ++ case_text j) }
{
    to.append(b"i32 ")?;
    put_number(to, j)?;
    to.append(b", label %b")?;
    put_number(to, j)?;
    to.append(b" ")
}

fn put_blocks(to: &mut Bytes) -> Result<(), Memory>
    ensures { OnOk result (to.new ≡ to.old ++ each block_text 64) }
{
    for j in 0..COUNT {
        put_block(to, j)?;
    }
    Ok(())
}

fn put_block(to: &mut Bytes, j: u64) -> Result<(), Memory>
    ensures { OnOk result (to.new ≡ to.old ++ block_text j) }
{
    put_numbered(to, b"b", j)?;
    put_numbered(to, b":\n  %r", j)?;
    put_numbered(to, b" = call i32 @w", j)?;
    to.append(b"(i32 %i)\n  br label %join\n")
}

// A text, and a number behind it.
fn put_numbered(to: &mut Bytes, text: &[u8], n: u64) -> Result<(), Memory>
    ensures { OnOk result (to.new ≡ to.old ++ text.now ++ decimal n) }
{
    to.append(text)?;
    put_number(to, n)
}

fn put_join(to: &mut Bytes) -> Result<(), Memory>
    ensures { OnOk result (to.new ≡ to.old ++ join_text) }
{
    to.append(b"join:\n  %r = phi i32 [ %r0, %b0 ]")?;
    put_arms(to)?;
    to.append(
        b"\n  %q = getelementptr inbounds [64 x i32], ptr @table, i64 0, i32 %k\n  store i32 %r, ptr %q\n  %v = load i32, ptr %q\n",
    )?;
    to.append(b"  %o = load i32, ptr @sum\n  %n = add i32 %o, %v\n  store i32 %n, ptr @sum\n")?;
    to.append(b"  %y = and i32 %v, 15\n  %z = add i32 %y, 65\n  %w = call i32 @putchar(i32 %z)\n")?;
    to.append(b"  %i2 = add i32 %i, 1\n  br label %head\ndone:\n  ret i32 0\n}\n")
}

fn put_arms(to: &mut Bytes) -> Result<(), Memory>
    ensures { OnOk result (to.new ≡ to.old ++ each (λ j. arm_text (j + 1)) 63) }
{
    for j in 0..COUNT - 1 {
        put_arm(to, j + 1)?;
    }
    Ok(())
}

fn put_arm(to: &mut Bytes, j: u64) -> Result<(), Memory>
    ensures { OnOk result (to.new ≡ to.old ++ arm_text j) }
{
    to.append(b", [ %r")?;
    put_number(to, j)?;
    to.append(b", %b")?;
    put_number(to, j)?;
    to.append(b" ]")
}
