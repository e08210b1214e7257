//! Declarations and definitions of functions.

ghost use Rattle.std.specs.Prelude.{◌≡◌, ◌<◌, length, map, IfOk, OnOk};
ghost use Rattle.ir_tree.specs.Table.{Table};
ghost use Rattle.ir_tree.specs.Naming.{Grows, name_at};
ghost use Rattle.ir_tree.specs.Shown.{shown_function};
ghost use Rattle.ir_text.specs.Reading.{Reads};
ghost use Rattle.ir_text.specs.Named.{known_of, layout_in};
ghost use Rattle.ir_text.specs.MemoryTypes.{AreLaid};
ghost use Rattle.ir_instr.specs.Defined.{AreNames, AreTypes, IsNew};
ghost use Rattle.ir_grammar.specs.Items as spec;

use crate::body::body;
use crate::params::{Params, read_header};
use crate::skipped::attached;
use ir_instr::defined::Defined;
use ir_text::cursor::Cursor;
use ir_text::fault::ReadEnd;
use ir_text::layouts::TypeLayouts;
use ir_text::leaves::mark;
use ir_text::named::NamedTypes;
use ir_text::passed::{Stops, words};
use ir_text::tails::notes;
use ir_tree::items::Function;
use ir_tree::table::Names;
use pv_base::list::List;

/// Passes over the words behind a declaration, up to one that begins an item.
fn words_behind(cursor: &mut Cursor<'_>) -> Result<(), ReadEnd>
    ensures { Reads (λ x. x) cursor.new result (spec.words_behind cursor.old) }
{
    let items = Stops {
        words: &[
            b"declare",
            b"define",
            b"source_filename",
            b"target",
            b"attributes",
        ],
        types: false,
    };
    words(cursor, &items)
}

/// Reads a declaration, behind `declare`, where these names of globals and functions were given before.
#[tactic(auto, using(ir_text::proofs::Later::later))]
pub fn declaration(
    cursor: &mut Cursor<'_>,
    names: &mut Names,
    values: &Defined,
) -> Result<Function, ReadEnd>
    requires { AreNames names.old values.now }
    ensures reads { (later : Table) → Grows names.new later → Reads (shown_function later) cursor.new result (spec.declaration_at (map (name_at later) values.now) cursor.old) }
    ensures new { IfOk result (λ f. IsNew names.new values.now f.name) }
    ensures grows { Grows names.old names.new }
{
    notes(cursor)?;
    let header = read_header(cursor, names, true, values)?;
    words_behind(cursor)?;
    attached(cursor)?;
    let Params { params, variadic } = header.params;
    Ok(Function {
        name: header.name,
        result: header.result,
        params,
        variadic,
        blocks: List::new(cursor.alloc()),
        declared: true,
    })
}

/// Reads a definition, behind `define`, where these names of globals and functions were given before.
#[tactic(auto, using(ir_text::proofs::Later::later))]
pub fn definition(
    cursor: &mut Cursor<'_>,
    names: &mut Names,
    known: &NamedTypes,
    layouts: &mut TypeLayouts,
    values: &Defined,
) -> Result<Function, ReadEnd>
    requires values { AreNames names.old values.now }
    requires types { AreTypes names.old known.now }
    requires laid { AreLaid (layout_in known.now) names.old layouts.old }
    ensures reads { (later : Table) → Grows names.new later → Reads (shown_function later) cursor.new result (spec.definition_at (known_of later known.now) (map (name_at later) values.now) cursor.old) }
    ensures new { IfOk result (λ f. IsNew names.new values.now f.name) }
    ensures laid { OnOk result (AreLaid (layout_in known.now) names.new layouts.new) }
    ensures grows { Grows names.old names.new }
{
    names.is_table();
    let mut header = read_header(cursor, names, false, values)?;
    let all = Stops {
        words: &[],
        types: false,
    };
    words(cursor, &all)?;
    notes(cursor)?;
    mark(cursor, b'{')?;
    let blocks = body(cursor, names, known, layouts, &mut header.scope)?;
    let Params { params, variadic } = header.params;
    Ok(Function {
        name: header.name,
        result: header.result,
        params,
        variadic,
        blocks,
        declared: false,
    })
}
