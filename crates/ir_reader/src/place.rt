//! Which fault of a text is its first by place.
//!
//! Faults of items and of the bodies of definitions are found by two readings, of which neither says how far it came. Where both
//! meet one, the fewest tokens in which something is wrong are searched for: what is wrong in some tokens is so with more behind.

ghost use Rattle.std.specs.Prelude.{◌≡◌, [], All, Err, IfOk, Some, unwrap_or};
ghost use Rattle.ir_lex.specs.Lexing.{TokenIn};
ghost use Rattle.ir_tree.specs.Table.{Table};
ghost use Rattle.ir_tree.specs.Naming.{Grows};
ghost use Rattle.ir_text.specs.Tokens.{tokens_of};
ghost use Rattle.ir_text.specs.Named.{known_of};
ghost use Rattle.ir_text.specs.Types.{Known};
ghost use Rattle.ir_instr.specs.Defined.{AreTypes};
ghost use Rattle.ir_grammar.specs.Items.{items_at};
ghost use Rattle.ir_grammar.specs.Texts.{token_fault, wrong_among, first_wrong};
ghost use Rattle.ir_reader.specs.Faulting.{at_token, IsSaid};

use crate::item::read_items;
use crate::named::{TextTypes, body_fault};
use ir_lex::token::Token;
use ir_text::cursor::Cursor;
use ir_text::fault::{Fault, ReadEnd};
use ir_text::named::NamedTypes;
use ir_tree::table::Names;
use pv_base::want::Memory;
use std::alloc::Global;

/// The fault, if it is at a token.
fn at_token(fault: Option<Fault>) -> Option<Fault>
    ensures { result ≡ at_token fault }
{
    match fault {
        Some(Fault::At(line, cause)) => Some(Fault::At(line, cause)),
        _ => None,
    }
}

/// What is wrong at a token of these in an item.
fn wrong_item(
    alloc: Global,
    text: &[u8],
    tokens: &[Token],
    names: &mut Names,
    known: &NamedTypes,
) -> Result<Option<Fault>, Memory>
    requires tokens { All (TokenIn text.now) tokens.now }
    requires types { AreTypes names.old known.now }
    ensures wrong { (all : Known) → ((later : Table) → Grows names.old later → known_of later known.now ≡ all) → IfOk result (λ fault. fault ≡ token_fault (items_at all (tokens_of text.now tokens.now))) }
    ensures grows { Grows names.old names.new }
{
    let mut cursor = Cursor::new(alloc, text, tokens);
    match read_items(&mut cursor, names, known) {
        Ok(_) => Ok(None),
        Err(ReadEnd::Bad(fault)) => Ok(at_token(Some(fault))),
        Err(ReadEnd::Memory) => Err(Memory),
    }
}

/// What is wrong at a token of these, in an item or else in the body of a definition.
fn wrong_among(
    alloc: Global,
    text: &[u8],
    tokens: &[Token],
    names: &mut Names,
    named: &TextTypes,
) -> Result<Option<Fault>, Memory>
    requires tokens { All (TokenIn text.now) tokens.now }
    requires types { AreTypes names.old named.now.known }
    ensures wrong { (only known : Known) → IsSaid names.old named.now only known → IfOk result (λ fault. fault ≡ wrong_among only known (tokens_of text.now tokens.now)) }
    ensures grows { Grows names.old names.new }
{
    match wrong_item(alloc, text, tokens, names, &named.known)? {
        Some(fault) => Ok(Some(fault)),
        None => Ok(at_token(body_fault(alloc, text, tokens, &named.only)?)),
    }
}

/// What is wrong in the fewest tokens, where this is wrong in all.
fn first_wrong(
    alloc: Global,
    text: &[u8],
    tokens: &[Token],
    names: &mut Names,
    named: &TextTypes,
    mut found: Fault,
) -> Result<Fault, Memory>
    requires tokens { All (TokenIn text.now) tokens.now }
    requires types { AreTypes names.old named.now.known }
    ensures { (only known : Known) → IsSaid names.old named.now only known → wrong_among only known (tokens_of text.now tokens.now) ≡ Some found → IfOk result (λ fault. first_wrong (wrong_among only known) [] (tokens_of text.now tokens.now) ≡ Some fault) }
{
    let mut least = 0;
    let mut most = tokens.len();
    while least < most {
        let middle = least + (most - least) / 2;
        match wrong_among(alloc, text, &tokens[..middle], names, named)? {
            Some(fault) => {
                found = fault;
                most = middle;
            }
            None => least = middle + 1,
        }
    }
    Ok(found)
}

/// The first fault of a text whose items end with this one: it, unless one in a body is met in fewer tokens.
pub fn first_fault(
    alloc: Global,
    text: &[u8],
    tokens: &[Token],
    names: &mut Names,
    named: &TextTypes,
    item: Fault,
) -> Result<Fault, Memory>
    requires tokens { All (TokenIn text.now) tokens.now }
    requires types { AreTypes names.old named.now.known }
    ensures { (only known : Known) → IsSaid names.old named.now only known → items_at known (tokens_of text.now tokens.now) ≡ Err item → IfOk result (λ fault. fault ≡ unwrap_or (first_wrong (wrong_among only known) [] (tokens_of text.now tokens.now)) item) }
{
    match at_token(body_fault(alloc, text, tokens, &named.only)?) {
        None => Ok(item),
        Some(body) => match item {
            Fault::Ended => Ok(body),
            Fault::At(line, cause) => {
                first_wrong(alloc, text, tokens, names, named, Fault::At(line, cause))
            }
        },
    }
}
