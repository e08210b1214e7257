//! The register that an instruction gives a result to.
ghost use Rattle.std.specs.Prelude.{◌≡◌};
ghost use Rattle.machine_calls.specs.Calls.{given_register};

use ir_code::op::Op;

/// The register that the instruction gives a result to.
pub fn result_register(op: &Op) -> Option<u32>
    ensures { result ≡ given_register op.now }
{
    match op {
        Op::Binary { to, .. } => Some(*to),
        Op::Cast { to, .. } => Some(*to),
        Op::Freeze { to, .. } => Some(*to),
        Op::Compare { to, .. } => Some(*to),
        Op::Select { to, .. } => Some(*to),
        Op::Alloca { to, .. } => Some(*to),
        Op::Load { to, .. } => Some(*to),
        Op::Address { to, .. } => Some(*to),
        Op::Call { to, .. } => *to,
        Op::CallPointer { to, .. } => *to,
        Op::CallExternal { to, .. } => *to,
        Op::Phi => None,
        Op::Store { .. } => None,
        Op::Return { .. } => None,
        Op::Jump { .. } => None,
        Op::Branch { .. } => None,
        Op::Switch { .. } => None,
        Op::Unreachable => None,
        Op::Stuck => None,
    }
}
