//! Named types, globals and functions.
ghost use Rattle.std.specs.Prelude.{◌≡◌, ◌++◌, ◌∷◌, [], map, option_map, codes, OnOk};
ghost use Rattle.ir_tree.specs.Naming.{type_at, name_at, constant_at};
ghost use Rattle.ir_tree.specs.Shown.{shown, shown_param, shown_block, shown_named, shown_global, shown_function};
ghost use Rattle.ir_printer.specs.Pieces.{Blank, Global as GlobalName, LineEnd, Mark, bytes_of, comma, led, joined};
ghost use Rattle.ir_printer.specs.Operands.{constant_pieces};
ghost use Rattle.ir_printer.specs.Items.{named_pieces, global_start, global_pieces, param_name, param_pieces, variadic_param, params_pieces, head_pieces, instruction_line, block_pieces, declared_pieces, defined_pieces, function_pieces};

use crate::instructions::put_instruction;
use crate::nested::{put_constant, put_type};
use crate::operands::{put_assigned, put_typed};
use crate::spelling::{put_global, put_label, put_local};
use ir_tree::instruction::Instruction;
use ir_tree::items::{Block, Function, Global, NamedType, Param};
use ir_tree::nodes::NameId;
use ir_tree::table::Names;
use pv_base::bytes::Bytes;
use pv_base::want::Memory;
use std::alloc::Global as Allocator;

/// `%name = type T`
fn put_named(
    alloc: Allocator,
    to: &mut Bytes,
    names: &Names,
    named: NamedType,
) -> Result<(), Memory>
    ensures { OnOk result (to.new ≡ to.old ++ bytes_of (named_pieces (shown_named names.now named))) }
{
    put_assigned(to, names, named.name, b"type")?;
    put_typed(alloc, to, names, named.of)?;
    to.append(b"\n")
}

pub(crate) fn put_types(
    alloc: Allocator,
    to: &mut Bytes,
    names: &Names,
    types: &[NamedType],
) -> Result<(), Memory>
    ensures { OnOk result (to.new ≡ to.old ++ bytes_of (joined (map named_pieces (map (shown_named names.now) types.now)))) }
{
    for named in types {
        put_named(alloc, to, names, *named)?;
    }
    Ok(())
}

/// `@name = global`
fn put_global_start(
    to: &mut Bytes,
    names: &Names,
    name: NameId,
    constant: bool,
) -> Result<(), Memory>
    ensures { OnOk result (to.new ≡ to.old ++ bytes_of (global_start (name_at names.now name) constant)) }
{
    put_global(to, names, name)?;
    if constant {
        to.append(b" = constant")
    } else {
        to.append(b" = global")
    }
}

/// `@name = global T INIT`
fn put_global_item(
    alloc: Allocator,
    to: &mut Bytes,
    names: &Names,
    global: Global,
) -> Result<(), Memory>
    ensures { OnOk result (to.new ≡ to.old ++ bytes_of (global_pieces (shown_global names.now global))) }
{
    put_global_start(to, names, global.name, global.constant)?;
    put_typed(alloc, to, names, global.of)?;
    to.append(b" ")?;
    put_constant(alloc, to, names, global.init)?;
    to.append(b"\n")
}

pub(crate) fn put_globals(
    alloc: Allocator,
    to: &mut Bytes,
    names: &Names,
    globals: &[Global],
) -> Result<(), Memory>
    ensures { OnOk result (to.new ≡ to.old ++ bytes_of (joined (map global_pieces (map (shown_global names.now) globals.now)))) }
{
    for global in globals {
        put_global_item(alloc, to, names, *global)?;
    }
    Ok(())
}

/// The name of a parameter, where it has one.
fn put_param_name(to: &mut Bytes, names: &Names, name: Option<NameId>) -> Result<(), Memory>
    ensures { OnOk result (to.new ≡ to.old ++ bytes_of (param_name (option_map (name_at names.now) name))) }
{
    match name {
        Some(name) => {
            to.append(b" ")?;
            put_local(to, names, name)
        }
        None => Ok(()),
    }
}

/// `T %name`
fn put_param(alloc: Allocator, to: &mut Bytes, names: &Names, param: Param) -> Result<(), Memory>
    ensures { OnOk result (to.new ≡ to.old ++ bytes_of (param_pieces (shown_param names.now param))) }
{
    put_type(alloc, to, names, param.of)?;
    put_param_name(to, names, param.name)
}

/// `, T %name`
fn put_next_param(
    alloc: Allocator,
    to: &mut Bytes,
    names: &Names,
    param: Param,
) -> Result<(), Memory>
    ensures { OnOk result (to.new ≡ to.old ++ bytes_of (comma ++ param_pieces (shown_param names.now param))) }
{
    to.append(b", ")?;
    put_param(alloc, to, names, param)
}

/// Each behind a comma.
fn put_next_params(
    alloc: Allocator,
    to: &mut Bytes,
    names: &Names,
    params: &[Param],
) -> Result<(), Memory>
    ensures { OnOk result (to.new ≡ to.old ++ bytes_of (led (map param_pieces (map (shown_param names.now) params.now)))) }
{
    for param in params {
        put_next_param(alloc, to, names, *param)?;
    }
    Ok(())
}

/// `, ...` behind the last parameter of a function that takes more.
fn put_next_dots(to: &mut Bytes, variadic: bool) -> Result<(), Memory>
    ensures { OnOk result (to.new ≡ to.old ++ bytes_of (led (variadic_param variadic))) }
{
    if variadic {
        to.append(b", ...")
    } else {
        Ok(())
    }
}

/// The parameters, with commas between them.
fn put_params(
    alloc: Allocator,
    to: &mut Bytes,
    names: &Names,
    params: &[Param],
    variadic: bool,
) -> Result<(), Memory>
    ensures { OnOk result (to.new ≡ to.old ++ bytes_of (params_pieces (map (shown_param names.now) params.now) variadic)) }
{
    match params {
        [] => { if variadic { to.append(b"...") } else { Ok(()) } }
        [first, rest @ ..] => {
            put_param(alloc, to, names, *first)?;
            put_next_params(alloc, to, names, rest)?;
            put_next_dots(to, variadic)
        }
    }
}

/// `T @name(PARAMS)`
fn put_head(
    alloc: Allocator,
    to: &mut Bytes,
    names: &Names,
    function: &Function,
) -> Result<(), Memory>
    ensures { OnOk result (to.new ≡ to.old ++ bytes_of (head_pieces (shown_function names.now function.now))) }
{
    put_type(alloc, to, names, function.result)?;
    to.append(b" ")?;
    put_global(to, names, function.name)?;
    to.append(b"(")?;
    put_params(
        alloc,
        to,
        names,
        function.params.as_slice(),
        function.variadic,
    )?;
    to.append(b")")
}

/// An instruction on its line, behind two blanks.
fn put_line(alloc: Allocator, to: &mut Bytes, names: &Names, it: &Instruction) -> Result<(), Memory>
    ensures { OnOk result (to.new ≡ to.old ++ bytes_of (instruction_line (shown names.now it.now))) }
{
    to.append(b"  ")?;
    put_instruction(alloc, to, names, it)?;
    to.append(b"\n")
}

fn put_lines(
    alloc: Allocator,
    to: &mut Bytes,
    names: &Names,
    lines: &[Instruction],
) -> Result<(), Memory>
    ensures { OnOk result (to.new ≡ to.old ++ bytes_of (joined (map instruction_line (map (shown names.now) lines.now)))) }
{
    for line in lines {
        put_line(alloc, to, names, line)?;
    }
    Ok(())
}

/// A block: its label on a line, and its instructions.
fn put_block(alloc: Allocator, to: &mut Bytes, names: &Names, block: &Block) -> Result<(), Memory>
    ensures { OnOk result (to.new ≡ to.old ++ bytes_of (block_pieces (shown_block names.now block.now))) }
{
    put_label(to, names, block.label)?;
    to.append(b"\n")?;
    put_lines(alloc, to, names, block.instructions.as_slice())
}

fn put_blocks(
    alloc: Allocator,
    to: &mut Bytes,
    names: &Names,
    blocks: &[Block],
) -> Result<(), Memory>
    ensures { OnOk result (to.new ≡ to.old ++ bytes_of (joined (map block_pieces (map (shown_block names.now) blocks.now)))) }
{
    for block in blocks {
        put_block(alloc, to, names, block)?;
    }
    Ok(())
}

/// `declare HEAD`
fn put_declared(
    alloc: Allocator,
    to: &mut Bytes,
    names: &Names,
    function: &Function,
) -> Result<(), Memory>
    ensures { OnOk result (to.new ≡ to.old ++ bytes_of (declared_pieces (shown_function names.now function.now))) }
{
    to.append(b"declare ")?;
    put_head(alloc, to, names, function)?;
    to.append(b"\n")
}

/// `define HEAD {`, the blocks, and `}` on a line
fn put_defined(
    alloc: Allocator,
    to: &mut Bytes,
    names: &Names,
    function: &Function,
) -> Result<(), Memory>
    ensures { OnOk result (to.new ≡ to.old ++ bytes_of (defined_pieces (shown_function names.now function.now))) }
{
    to.append(b"define ")?;
    put_head(alloc, to, names, function)?;
    to.append(b" {\n")?;
    put_blocks(alloc, to, names, function.blocks.as_slice())?;
    to.append(b"}\n")
}

#[tactic(auto, unfolding(crate::specs::Items::function_pieces))]
fn put_function(
    alloc: Allocator,
    to: &mut Bytes,
    names: &Names,
    function: &Function,
) -> Result<(), Memory>
    ensures { OnOk result (to.new ≡ to.old ++ bytes_of (function_pieces (shown_function names.now function.now))) }
{
    if function.declared {
        put_declared(alloc, to, names, function)
    } else {
        put_defined(alloc, to, names, function)
    }
}

pub(crate) fn put_functions(
    alloc: Allocator,
    to: &mut Bytes,
    names: &Names,
    functions: &[Function],
) -> Result<(), Memory>
    ensures { OnOk result (to.new ≡ to.old ++ bytes_of (joined (map function_pieces (map (shown_function names.now) functions.now)))) }
{
    for function in functions {
        put_function(alloc, to, names, function)?;
    }
    Ok(())
}
