//! Names by number: each name has one key.
ghost use Rattle.std.specs.Prelude.{◌≡◌, IfOk};
ghost use Rattle.pv_base.specs.declared.name.Name.TheVariants.{Numbered};
ghost use Rattle.ir_tree.specs.Table.{same_name};
ghost use Rattle.ir_tree.specs.Naming.{name_at};
ghost use Rattle.ir_checker.specs.Keys.{key_of, IsZero};

use ir_rules::flags::number_of;
use ir_rules::whole::name;
use ir_tree::nodes::NameId;
use ir_tree::table::Names;
use pv_base::name::Name;
use pv_base::want::Memory;

/// Whether a number is of the name 0, for which a number that the table lacks stands.
fn is_name_zero(names: &Names, number: NameId) -> bool
    ensures { result ≡ same_name (name_at names.now number) (Numbered 0) }
{
    match name(names, number) {
        Some(Name::Numbered(number)) => *number == 0,
        Some(Name::Named(_)) => false,
        None => true,
    }
}

/// The key of the name 0.
pub fn zero_key(names: &Names) -> Result<usize, Memory>
    ensures { IfOk result (IsZero names.now) }
{
    names.is_table();
    for i in 0..names.name_count() {
        let number = number_of(i)?;
        if is_name_zero(names, number) {
            return Ok(i);
        }
    }
    Ok(names.name_count())
}

/// The key of the name of a number.
pub fn key_of(names: &Names, zero: usize, number: NameId) -> usize
    ensures { result ≡ key_of names.now zero number }
{
    let key = number as usize;
    if key < names.name_count() { key } else { zero }
}
