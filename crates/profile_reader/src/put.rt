//! Lines of a loop, each put at its end.
ghost use Rattle.std.specs.Prelude.{◌≡◌, ◌++◌, ◌∷◌, [], ◌<◌, None, OnOk};
ghost use Rattle.profile_lines.specs.Keys.{rank as rank_of};
ghost use Rattle.profile_reader.specs.Grammar.{open_lines};
ghost use Rattle.profile_reader.specs.Standing.{InOrder};

use profile_lines::lines::Line;
use profile_lines::profile::{
    FlowLine, PhiLine, ProfileLoop, ProfileName, SiteName, UseLine, ValueLine,
};
use pv_base::list::List;
use pv_base::want::Memory;
use std::alloc::Global;

/// A loop without lines.
pub fn empty_loop(alloc: Global, function: ProfileName, header: ProfileName) -> ProfileLoop
    ensures lines { open_lines result ≡ Line.Loop function header ∷ [] }
    ensures order { InOrder result 0 }
{
    ProfileLoop {
        function,
        header,
        period: None,
        blocks: List::new(alloc),
        phis: List::new(alloc),
        uses: List::new(alloc),
        locals: List::new(alloc),
        flows: List::new(alloc),
        values: List::new(alloc),
    }
}

fn put_period(current: &mut ProfileLoop, turns: u32)
    requires order { InOrder current.old 1 }
    requires none { current.old.period ≡ None }
    ensures lines { open_lines current.new ≡ open_lines current.old ++ Line.Period turns ∷ [] }
    ensures order { InOrder current.new 1 }
{
    current.period = Some(turns);
}

fn put_block(current: &mut ProfileLoop, name: ProfileName) -> Result<(), Memory>
    requires { InOrder current.old 2 }
    ensures lines { OnOk result (open_lines current.new ≡ open_lines current.old ++ Line.Block name ∷ []) }
    ensures order { OnOk result (InOrder current.new 2) }
{
    current.blocks.push(name)?;
    Ok(())
}

fn put_phi(current: &mut ProfileLoop, phi: PhiLine) -> Result<(), Memory>
    requires { InOrder current.old 3 }
    ensures lines { OnOk result (open_lines current.new ≡ open_lines current.old ++ Line.Phi phi ∷ []) }
    ensures order { OnOk result (InOrder current.new 3) }
{
    current.phis.push(phi)?;
    Ok(())
}

fn put_use(current: &mut ProfileLoop, touched: UseLine) -> Result<(), Memory>
    requires { InOrder current.old 4 }
    ensures lines { OnOk result (open_lines current.new ≡ open_lines current.old ++ Line.Use touched ∷ []) }
    ensures order { OnOk result (InOrder current.new 4) }
{
    current.uses.push(touched)?;
    Ok(())
}

fn put_local(current: &mut ProfileLoop, site: SiteName) -> Result<(), Memory>
    requires { InOrder current.old 5 }
    ensures lines { OnOk result (open_lines current.new ≡ open_lines current.old ++ Line.Local site ∷ []) }
    ensures order { OnOk result (InOrder current.new 5) }
{
    current.locals.push(site)?;
    Ok(())
}

fn put_flow(current: &mut ProfileLoop, flow: FlowLine) -> Result<(), Memory>
    requires { InOrder current.old 6 }
    ensures lines { OnOk result (open_lines current.new ≡ open_lines current.old ++ Line.Flow flow ∷ []) }
    ensures order { OnOk result (InOrder current.new 6) }
{
    current.flows.push(flow)?;
    Ok(())
}

fn put_value(current: &mut ProfileLoop, value: ValueLine) -> Result<(), Memory>
    requires { InOrder current.old 7 }
    ensures lines { OnOk result (open_lines current.new ≡ open_lines current.old ++ Line.Value value ∷ []) }
    ensures order { OnOk result (InOrder current.new 7) }
{
    current.values.push(value)?;
    Ok(())
}

/// Puts a line at its loop's end; a loop has one period at most.
pub fn put(current: &mut ProfileLoop, line: Line) -> Result<(), Memory>
    requires first { 0 < rank_of line }
    requires last { rank_of line < 8 }
    requires order { InOrder current.old (rank_of line) }
    requires period { rank_of line ≡ 1 → current.old.period ≡ None }
    ensures lines { OnOk result (open_lines current.new ≡ open_lines current.old ++ line ∷ []) }
    ensures order { OnOk result (InOrder current.new (rank_of line)) }
{
    match line {
        Line::Period(turns) => {
            put_period(current, turns);
            Ok(())
        }
        Line::Block(name) => put_block(current, name),
        Line::Phi(phi) => put_phi(current, phi),
        Line::Use(touched) => put_use(current, touched),
        Line::Local(site) => put_local(current, site),
        Line::Flow(flow) => put_flow(current, flow),
        Line::Value(value) => put_value(current, value),
        Line::Loop(_function, _header) => Ok(()),
        Line::End => Ok(()),
    }
}
