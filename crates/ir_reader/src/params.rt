//! The parameters of functions.

ghost use Rattle.std.specs.Prelude.{◌≡◌, ◌<◌, [], length, map, fold, option_map, IfOk, OnOk, IfSome};
ghost use Rattle.ir_tree.specs.Table.{Table};
ghost use Rattle.ir_tree.specs.Naming.{Grows, name_at};
ghost use Rattle.ir_tree.specs.Shown.{shown_param};
ghost use Rattle.ir_text.specs.Reading.{Reads, next_is, token_by};
ghost use Rattle.ir_text.specs.Tokens.{is_points};
ghost use Rattle.ir_instr.specs.Defined.{AreNames, IsNew};
ghost use Rattle.ir_grammar.specs.Headers as spec;
ghost use Rattle.ir_grammar.specs.Scopes.{after_param};
ghost use Rattle.ir_reader.specs.Scoping.{scope_at};
ghost use Rattle.ir_reader.specs.Heads.{shown_params, shown_header, ParamWithin};

use crate::names::{defined_name, new_global};
use crate::scope::Scope;
use ir_instr::defined::Defined;
use ir_lex::token::{Cause, TokenKind};
use ir_text::cursor::{Cursor, Lexeme};
use ir_text::fault::{Fault, ReadEnd};
use ir_text::leaves::{bad, eat, mark, sees};
use ir_text::operands::sees_local;
use ir_text::passed::{Stops, words};
use ir_text::types::{register_type, result_type};
use ir_tree::items::Param;
use ir_tree::nodes::{NameId, TypeId};
use ir_tree::table::Names;
use pv_base::bytes::Bytes;
use pv_base::list::List;
use pv_base::name::Name;
use pv_base::want::Memory;

/// Parameters, and whether `...` stands behind them.
#[derive(Drop)]
pub struct Params {
    pub params: List<Param>,
    pub variadic: bool,
}

/// The name of a parameter that is written without one: none in a declaration, and else the counter's number.
#[tactic(auto, using(ir_text::proofs::Later::named))]
fn unnamed(names: &mut Names, declared: bool, next: u64) -> Result<Option<NameId>, Memory>
    ensures shows { IfOk result (λ k. (later : Table) → Grows names.new later → option_map (name_at later) k ≡ spec.unnamed declared next) }
    ensures within { IfOk result (λ k. IfSome k (λ n. n < length names.new.names)) }
    ensures grows { Grows names.old names.new }
{
    match declared {
        true => Ok(None),
        false => Ok(Some(names.number(Name::Numbered(next))?)),
    }
}

/// Reads the name of a parameter, or none.
fn param_name(
    cursor: &mut Cursor<'_>,
    names: &mut Names,
    declared: bool,
    scope: &Scope,
) -> Result<Option<NameId>, ReadEnd>
    requires { AreNames names.old scope.now.defined }
    ensures reads { (later : Table) → Grows names.new later → Reads (option_map (name_at later)) cursor.new result (spec.param_name_at declared (scope_at later scope.now) cursor.old) }
    ensures within { IfOk result (λ k. IfSome k (λ n. n < length names.new.names)) }
    ensures grows { Grows names.old names.new }
{
    if sees_local(cursor) {
        return Ok(Some(defined_name(cursor, names, scope)?));
    }
    Ok(unnamed(names, declared, scope.next)?)
}

/// Reads `T WORDS %name`, or `T WORDS`.
#[tactic(auto, using(ir_text::proofs::Later::later, ir_instr::proofs::Kept::names_kept))]
fn param(
    cursor: &mut Cursor<'_>,
    names: &mut Names,
    declared: bool,
    scope: &Scope,
) -> Result<Param, ReadEnd>
    requires { AreNames names.old scope.now.defined }
    ensures reads { (later : Table) → Grows names.new later → Reads (shown_param later) cursor.new result (spec.param_at declared (scope_at later scope.now) cursor.old) }
    ensures within { IfOk result (ParamWithin names.new) }
    ensures grows { Grows names.old names.new }
{
    let of = register_type(cursor, names)?;
    let all = Stops {
        words: &[],
        types: false,
    };
    words(cursor, &all)?;
    let name = param_name(cursor, names, declared, scope)?;
    Ok(Param { name, of })
}

/// Notes what a parameter defines.
fn note(names: &Names, scope: &mut Scope, param: Param) -> Result<(), Memory>
    requires names { AreNames names.now scope.old.defined }
    requires within { ParamWithin names.now param }
    ensures defines { OnOk result ((later : Table) → Grows names.now later → scope_at later scope.new ≡ after_param (scope_at later scope.old) (shown_param later param)) }
    ensures names { OnOk result (AreNames names.now scope.new.defined) }
{
    match param.name {
        Some(name) => scope.define(names, name),
        None => scope.count(),
    }
}

/// Whether a token is `...`.
fn is_points(lexeme: &Lexeme<'_>) -> bool
    ensures { result ≡ is_points lexeme.now }
{
    match lexeme.kind() {
        TokenKind::Punct => lexeme.bytes() == b"...".as_slice(),
        _ => false,
    }
}

/// Whether `...` comes next.
#[tactic(auto, unfolding(ir_text::specs::Reading::next_is))]
fn sees_points(cursor: &Cursor<'_>) -> bool
    ensures { result ≡ next_is is_points cursor.now }
{
    match cursor.peek() {
        None => false,
        Some(lexeme) => is_points(&lexeme),
    }
}

/// Reads `...`, which a definition has not.
#[tactic(auto, unfolding(ir_text::specs::Reading::token_by))]
fn points(cursor: &mut Cursor<'_>, declared: bool) -> Result<(), ReadEnd>
    ensures { Reads (λ x. x) cursor.new result (token_by (spec.points_by declared) cursor.old) }
{
    let lexeme = match cursor.next() {
        None => return Err(ReadEnd::Bad(Fault::Ended)),
        Some(lexeme) => lexeme,
    };
    if !declared {
        let word = Bytes::from_slice(cursor.alloc(), b"...")?;
        return Err(bad(cursor.alloc(), &lexeme, Cause::OutOfProfile(word)));
    }
    if is_points(&lexeme) {
        return Ok(());
    }
    Err(bad(cursor.alloc(), &lexeme, Cause::Operand))
}

/// Reads a parameter, and notes what it defines.
#[tactic(auto, using(ir_text::proofs::Later::later, ir_instr::proofs::Kept::names_kept))]
fn noted_param(
    cursor: &mut Cursor<'_>,
    names: &mut Names,
    declared: bool,
    scope: &mut Scope,
) -> Result<Param, ReadEnd>
    requires { AreNames names.old scope.old.defined }
    ensures reads { (later : Table) → Grows names.new later → Reads (shown_param later) cursor.new result (spec.param_at declared (scope_at later scope.old) cursor.old) }
    ensures defines { IfOk result (λ p. (later : Table) → Grows names.new later → scope_at later scope.new ≡ after_param (scope_at later scope.old) (shown_param later p)) }
    ensures names { OnOk result (AreNames names.new scope.new.defined) }
    ensures grows { Grows names.old names.new }
{
    let param = param(cursor, names, declared, scope)?;
    note(names, scope, param)?;
    Ok(param)
}

/// Reads parameters with commas between them, and `...` or nothing behind them.
fn entries(
    cursor: &mut Cursor<'_>,
    names: &mut Names,
    declared: bool,
    scope: &mut Scope,
) -> Result<Params, ReadEnd>
    requires { AreNames names.old scope.old.defined }
    ensures reads { (later : Table) → Grows names.new later → Reads (shown_params later) cursor.new result (spec.entries_to declared (length cursor.old) (scope_at later scope.old) cursor.old) }
    ensures defines { IfOk result (λ p. (later : Table) → Grows names.new later → scope_at later scope.new ≡ fold after_param (scope_at later scope.old) (map (shown_param later) p.params)) }
    ensures names { OnOk result (AreNames names.new scope.new.defined) }
    ensures grows { Grows names.old names.new }
{
    let mut params = List::new(cursor.alloc());
    for turn in 0..cursor.len() {
        if sees_points(cursor) {
            points(cursor, declared)?;
            return Ok(Params {
                params,
                variadic: true,
            });
        }
        let param = noted_param(cursor, names, declared, scope)?;
        params.push(param)?;
        if !eat(cursor, b',') {
            return Ok(Params {
                params,
                variadic: false,
            });
        }
    }
    Err(ReadEnd::Bad(Fault::Ended))
}

/// Reads parameters up to the closing parenthesis.
fn read_params(
    cursor: &mut Cursor<'_>,
    names: &mut Names,
    declared: bool,
    scope: &mut Scope,
) -> Result<Params, ReadEnd>
    requires { scope.old ≡ record { next = 0; defined = [] } }
    ensures reads { (later : Table) → Grows names.new later → Reads (shown_params later) cursor.new result (spec.params_at declared cursor.old) }
    ensures defines { IfOk result (λ p. (later : Table) → Grows names.new later → scope_at later scope.new ≡ spec.scope_of (shown_params later p)) }
    ensures names { OnOk result (AreNames names.new scope.new.defined) }
    ensures grows { Grows names.old names.new }
{
    if sees(cursor, b')') {
        mark(cursor, b')')?;
        return Ok(Params {
            params: List::new(cursor.alloc()),
            variadic: false,
        });
    }
    let params = entries(cursor, names, declared, scope)?;
    mark(cursor, b')')?;
    Ok(params)
}

/// The head of a function, and what it defines.
#[derive(Drop)]
pub struct Header {
    pub result: TypeId,
    pub name: NameId,
    pub params: Params,
    pub scope: Scope,
}

/// Reads `WORDS T @name(PARAMS)`, where these names of globals and functions were given before.
#[tactic(auto, using(ir_text::proofs::Later::later, ir_instr::proofs::Kept::names_kept))]
pub fn read_header(
    cursor: &mut Cursor<'_>,
    names: &mut Names,
    declared: bool,
    values: &Defined,
) -> Result<Header, ReadEnd>
    requires { AreNames names.old values.now }
    ensures reads { (later : Table) → Grows names.new later → Reads (shown_header later) cursor.new result (spec.header_at declared (map (name_at later) values.now) cursor.old) }
    ensures defines { IfOk result (λ h. (later : Table) → Grows names.new later → scope_at later h.scope ≡ spec.scope_of (shown_params later h.params)) }
    ensures names { IfOk result (λ h. AreNames names.new h.scope.defined) }
    ensures new { IfOk result (λ h. IsNew names.new values.now h.name) }
    ensures grows { Grows names.old names.new }
{
    let all = Stops {
        words: &[],
        types: true,
    };
    words(cursor, &all)?;
    let result = result_type(cursor, names)?;
    let name = new_global(cursor, names, values)?;
    mark(cursor, b'(')?;
    let mut scope = Scope::new(cursor.alloc());
    let params = read_params(cursor, names, declared, &mut scope)?;
    Ok(Header {
        result,
        name,
        params,
        scope,
    })
}
