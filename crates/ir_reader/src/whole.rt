//! Whole texts.
ghost use Rattle.std.specs.Prelude.{◌≡◌, ◌<◌, ◌^◌, [], length, All, List, None, Ok, IfOk};
ghost use Rattle.pv_base.specs.declared.name.Name.{Name};
ghost use Rattle.ir_tree.specs.declared.items.NamedType.{NamedType};
ghost use Rattle.ir_tree.specs.Table.{Table};
ghost use Rattle.ir_tree.specs.Trees.{TypeV};
ghost use Rattle.ir_tree.specs.Filling.{NamedWithin, named_types};
ghost use Rattle.ir_tree.specs.Staying.{StaysSame};
ghost use Rattle.ir_tree.specs.Naming.{Grows};
ghost use Rattle.ir_lex.specs.Lexing.{TokenIn};
ghost use Rattle.ir_text.specs.Tokens.{tokens_of};
ghost use Rattle.ir_text.specs.Reading.{Outcome};
ghost use Rattle.ir_text.specs.Named.{known_of};
ghost use Rattle.ir_text.specs.Types.{Known};
ghost use Rattle.ir_instr.specs.Defined.{AreTypes};
ghost use Rattle.ir_grammar.specs.Modules.{ModuleV};
ghost use Rattle.ir_grammar.specs.NamedTypes.{definitions, bodies_read};
ghost use Rattle.ir_grammar.specs.Texts.{last_line, end_of, settled, module_at, wrong_among, first_wrong, unless_wrong, read_of};
ghost use Rattle.ir_reader.specs.Answering.{IsRead, IsReading};
ghost use Rattle.ir_reader.specs.Faulting.{IsSaid};
ghost use Rattle.ir_reader.specs.Gathered.{IsWhole};
ghost use Rattle.ir_reader.specs.Knowing.{fault_in};

use crate::item::read_items;
use crate::named::{TextTypes, body_fault, known_in};
use crate::place::first_fault;
use crate::records::without_records;
use crate::so_far::SoFar;
use ir_lex::scan::tokens;
use ir_lex::token::{Cause, ReadError, Token};
use ir_text::cursor::Cursor;
use ir_text::fault::{Fault, ReadEnd};
use ir_tree::table::Names;
use ir_tree::whole::Module;
use pv_base::want::Memory;
use std::alloc::Global;

/// How the reading of a text ends that gives no module.
#[derive(Debug, Drop)]
pub enum TextEnd {
    /// Memory was refused, which says nothing of the text.
    Memory,
    /// The text's first fault, with its line.
    Bad(ReadError),
}

impl From<Memory> for TextEnd {
    ghost use Rattle.ir_reader.specs.declared.whole.TextEnd.TheVariants as ends;

    ghost from_gives = { λ _ e. e ≡ ends.Memory };

    fn from(_error: Memory) -> TextEnd {
        TextEnd::Memory
    }
}

/// The line of the last byte: a newline at the end belongs to the line that it ends.
fn last_line(text: &[u8]) -> u32
    requires { length text.now < 2 ^ 32 }
    ensures { result ≡ last_line text.now }
{
    let front = &text[..text.len().saturating_sub(1)];
    1 + front.iter().filter(|b| **b == b'\n').count() as u32
}

/// Where the tokens end: at the lexical fault, if there is one, or at the end of the text.
fn end_of(last: u32, fault: Option<ReadError>) -> ReadError
    ensures { result ≡ end_of last fault }
{
    match fault {
        Some(error) => error,
        None => ReadError {
            line: last,
            cause: Cause::End,
        },
    }
}

/// What a text gives, by what is read of its tokens before the lexical fault, if there is one.
fn settle(
    text: &[u8],
    fault: Option<ReadError>,
    read: Result<Module, ReadEnd>,
) -> Result<Module, TextEnd>
    requires { length text.now < 2 ^ 32 }
    ensures reading { (outcome : Outcome ModuleV) → IsRead read outcome → IsReading result (settled (last_line text.now) fault outcome) }
    ensures kept { IfOk result (λ m. read ≡ Ok m) }
{
    match read {
        Err(ReadEnd::Memory) => Err(TextEnd::Memory),
        Err(ReadEnd::Bad(Fault::At(line, cause))) => Err(TextEnd::Bad(ReadError { line, cause })),
        Err(ReadEnd::Bad(Fault::Ended)) => Err(TextEnd::Bad(end_of(last_line(text), fault))),
        Ok(module) => match fault {
            Some(error) => Err(TextEnd::Bad(error)),
            None => Ok(module),
        },
    }
}

/// The module of these items.
fn module_in(alloc: Global, names: Names, named: TextTypes, read: SoFar) -> Result<Module, ReadEnd>
    requires within { All (NamedWithin names) named.types }
    ensures { IsWhole names named read None result }
{
    let SoFar {
        globals,
        functions,
        ..
    } = read;
    Ok(Module::new(alloc, names, named.types, globals, functions)?)
}

/// The module of these items, unless there is a fault in the body of a definition.
fn module_with(
    alloc: Global,
    text: &[u8],
    tokens: &[Token],
    names: Names,
    named: TextTypes,
    read: SoFar,
) -> Result<Module, ReadEnd>
    requires tokens { All (TokenIn text.now) tokens.now }
    requires within { All (NamedWithin names) named.types }
    ensures { (only : Known) → ((later : Table) → known_of later named.only ≡ only) → IsWhole names named read (fault_in (bodies_read only (definitions (tokens_of text.now tokens.now)))) result }
{
    if let Some(fault) = body_fault(alloc, text, tokens, &named.only)? {
        return Err(ReadEnd::Bad(fault));
    }
    module_in(alloc, names, named, read)
}

/// Reads the module of all items, among the named types of the whole text.
fn module_of(
    alloc: Global,
    text: &[u8],
    tokens: &[Token],
    mut names: Names,
    named: TextTypes,
) -> Result<Module, ReadEnd>
    requires tokens { All (TokenIn text.now) tokens.now }
    requires bodies { AreTypes names named.known }
    requires within { All (NamedWithin names) named.types }
    ensures reads { (types : List (NamedType Name TypeV)) (only known : Known) → ((later : Table) → Grows names later → named_types later named.types ≡ types) → IsSaid names named only known → IsRead result (unless_wrong (first_wrong (wrong_among only known) [] (tokens_of text.now tokens.now)) (module_at types (bodies_read only (definitions (tokens_of text.now tokens.now))) known (tokens_of text.now tokens.now))) }
    ensures stays { (types : List (NamedType Name TypeV)) (only known : Known) → ((later : Table) → Grows names later → named_types later named.types ≡ types) → IsSaid names named only known → IfOk result StaysSame }
{
    let mut cursor = Cursor::new(alloc, text, tokens);
    let read = match read_items(&mut cursor, &mut names, &named.known) {
        Ok(read) => read,
        Err(ReadEnd::Memory) => return Err(ReadEnd::Memory),
        Err(ReadEnd::Bad(item)) => {
            let fault = first_fault(alloc, text, tokens, &mut names, &named, item)?;
            return Err(ReadEnd::Bad(fault));
        }
    };
    module_with(alloc, text, tokens, names, named, read)
}

/// Reads a module's text. Where it has a fault, its first fault is answered: the first by place, and at one place the cause
/// of least number. It takes time linear in the text but for looking names up, and that as often as a logarithm of the text
/// says where both an item and the body of a definition have a fault.
pub fn read_module(alloc: Global, text: &[u8]) -> Result<Module, TextEnd>
    requires { length text.now < 2 ^ 32 }
    ensures reading { IsReading result (read_of text.now) }
    ensures stays { IfOk result StaysSame }
{
    let lexed = tokens(alloc, text)?;
    let kept = without_records(alloc, text, lexed.tokens.as_slice())?;
    let left = kept.as_slice();
    let mut names = Names::new(alloc);
    let named = known_in(alloc, text, left, &mut names)?;
    let read = module_of(alloc, text, left, names, named);
    settle(text, lexed.fault, read)
}
