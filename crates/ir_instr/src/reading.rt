//! Reading one instruction from a token on.

ghost use Rattle.std.specs.Prelude.{◌≡◌, ◌<◌, ◌≤◌, ◌^◌, All, drop, length, map};
ghost use Rattle.ir_lex.specs.Lexing.{TokenIn};
ghost use Rattle.ir_tree.specs.Table.{Table};
ghost use Rattle.ir_tree.specs.Naming.{Grows, name_at};
ghost use Rattle.ir_tree.specs.Shown.{shown};
ghost use Rattle.ir_text.specs.Named.{known_of};
ghost use Rattle.ir_text.specs.Tokens.{tokens_of};
ghost use Rattle.ir_instr.specs.Defined.{AreNames, AreTypes};
ghost use Rattle.ir_instr.specs.Ends.{Answered, newlines, last_line, refusal};
ghost use Rattle.ir_instr.specs.Instructions.{instruction_at};

use crate::defined::Defined;
use crate::instructions::instruction;
use ir_lex::token::{Cause, ReadError, Token};
use ir_text::cursor::Cursor;
use ir_text::fault::{Fault, ReadEnd};
use ir_text::layouts::TypeLayouts;
use ir_text::named::NamedTypes;
use ir_tree::instruction::Instruction;
use ir_tree::table::Names;
use pv_base::list::List;

/// What is known of a function and of the whole text where an instruction is read.
#[derive(Drop)]
pub struct Seen {
    /// The number that an unnamed value takes.
    pub next: u64,
    /// The names of the arguments, blocks and results that the function has defined.
    pub defined: Defined,
    /// The named types of the whole text.
    pub types: NamedTypes,
}

/// Why no instruction is answered.
#[derive(Debug, Drop)]
pub enum InstrError {
    /// The first fault.
    Bad(ReadError),
    /// Memory was refused, which says nothing of the text.
    Memory,
}

/// How many newlines a text has.
fn newlines(text: &[u8]) -> usize
    ensures is { result ≡ newlines text.now }
    ensures few { result ≤ length text.now }
{
    text.iter().filter(|byte| **byte == b'\n').count()
}

/// The line of a text's last byte, and 1 for an empty one. A newline at the end belongs to the line that it ends.
fn last_line(text: &[u8]) -> u32
    requires { length text.now < 2 ^ 32 }
    ensures { result ≡ last_line text.now }
{
    if text.is_empty() {
        return 1;
    }
    let front = &text[..text.len() - 1];
    1 + newlines(front) as u32
}

/// A fault with its line; `last` is that of the text's last byte.
fn refusal(fault: Fault, last: u32) -> ReadError
    ensures { result ≡ refusal last fault }
{
    match fault {
        Fault::At(line, cause) => ReadError { line, cause },
        Fault::Ended => ReadError {
            line: last,
            cause: Cause::End,
        },
    }
}

/// Reads one instruction from a token on, and answers the number of the token behind it. The tokens are those of the text
/// without the lines of debug records. Names, types and constants that were met are added to `names`, also before a refusal.
pub fn read_instruction(
    text: &[u8],
    tokens: &List<Token>,
    from: u32,
    names: &mut Names,
    seen: &Seen,
) -> Result<(Instruction, u32), InstrError>
    requires text { length text.now < 2 ^ 32 }
    requires tokens { All (TokenIn text.now) tokens.now }
    requires count { length tokens.now < 2 ^ 32 }
    requires from { from ≤ length tokens.now }
    requires names { AreNames names.old seen.now.defined }
    requires types { AreTypes names.old seen.now.types }
    ensures reads { (later : Table) → Grows names.new later → Answered (last_line text.now) (length tokens.now) (shown later) result (instruction_at (known_of later seen.now.types) seen.now.next (map (name_at later) seen.now.defined) (tokens_of text.now (drop from tokens.now))) }
    ensures grows { Grows names.old names.new }
{
    let alloc = tokens.alloc();
    let mut cursor = Cursor::new(alloc, text, &tokens.as_slice()[from as usize..]);
    let mut layouts = TypeLayouts::new(alloc);
    let read = instruction(
        &mut cursor,
        names,
        &seen.types,
        &mut layouts,
        seen.next,
        &seen.defined,
    );
    match read {
        Ok(found) => Ok((found, (tokens.len() - cursor.len()) as u32)),
        Err(ReadEnd::Bad(fault)) => Err(InstrError::Bad(refusal(fault, last_line(text)))),
        Err(ReadEnd::Memory) => Err(InstrError::Memory),
    }
}
