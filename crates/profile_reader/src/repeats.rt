//! What lines said before, found without a look at each of them.
ghost use Rattle.std.specs.Prelude.{◌≡◌, ◌++◌, ◌∷◌, [], List, IfOk, OnOk, not};
ghost use Rattle.std.specs.Str.{bytes_eq};
ghost use Rattle.std.specs.List.{list_any};
ghost use Rattle.profile_lines.specs.declared.lines.Line.{Line};
ghost use Rattle.profile_lines.specs.Keys.{key_of};
ghost use Rattle.profile_reader.specs.Standing.{Holds};
ghost use Rattle.profile_reader.specs.Reading.{says_again};

use profile_lines::keys::key;
use profile_lines::lines::Line;
use pv_base::want::Memory;
use std::alloc::Global;
use std::collections::BTreeSet;

/// Notes what a line says; false where a noted line said the same.
pub fn note(alloc: Global, set: &mut BTreeSet<Vec<u64>>, line: &Line) -> Result<bool, Memory>
    ensures new { (lines : List Line) → Holds set.old lines → IfOk result (λ new. new ≡ not (list_any (says_again line.now) lines)) }
    ensures holds { (lines : List Line) → Holds set.old lines → OnOk result (Holds set.new (lines ++ line.now ∷ [])) }
{
    let key = key(alloc, line)?;
    let new = set.insert(key)?;
    Ok(new)
}
