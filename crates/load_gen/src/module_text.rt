//! The text of a module.
ghost use Rattle.std.specs.Prelude.{◌≡◌, ◌++◌, OnOk};
ghost use Rattle.load_gen.specs.Numbers.{each};
ghost use Rattle.load_gen.specs.Module.{globals_text, function_text, worker_text, main_text, module_text};

use crate::main_text::put_main;
use crate::put::{COUNT, next, put_number};
use pv_base::bytes::Bytes;
use pv_base::want::Memory;

pub(crate) fn put_module(to: &mut Bytes, number: u64, turns: u32) -> Result<(), Memory>
    ensures { OnOk result (to.new ≡ to.old ++ module_text number turns) }
{
    to.append(
        b"@table = global [64 x i32] zeroinitializer\n@sum = global i32 0\ndeclare i32 @putchar(i32)\n",
    )?;
    put_functions(to, number)?;
    put_main(to, turns)
}

fn put_functions(to: &mut Bytes, number: u64) -> Result<(), Memory>
    ensures { OnOk result (to.new ≡ to.old ++ each (function_text number) 64) }
{
    let mut drawn = number;
    for j in 0..COUNT {
        let factor = next(drawn);
        let addend = next(factor);
        put_function(to, j, factor >> 40, addend >> 40)?;
        drawn = addend;
    }
    Ok(())
}

fn put_function(to: &mut Bytes, j: u64, factor: u64, addend: u64) -> Result<(), Memory>
    ensures { OnOk result (to.new ≡ to.old ++ worker_text j factor addend) }
{
    to.append(b"define i32 @w")?;
    put_number(to, j)?;
    to.append(b"(i32 %x) {\nentry:\n  %a = mul i32 %x, ")?;
    put_number(to, factor)?;
    to.append(b"\n  %b = add i32 %a, ")?;
    put_number(to, addend)?;
    to.append(b"\n  ret i32 %b\n}\n")
}
