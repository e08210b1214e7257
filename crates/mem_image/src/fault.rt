//! Why a call of memory or a step fails: a trap of the program, a check of a worker, or want of memory.
ghost use Rattle.std.specs.Prelude.{◌≡◌};
ghost use Rattle.mem_image.specs.Words.{trap_word};

use pv_base::place::Heap;
use pv_base::want;

/// The traps, which are the program's own undefined behaviours, made certain, and its limits.
#[derive(Clone, Copy, Debug, PartialEq, Eq)]
pub enum Trap {
    UnsetRegister,
    UnsetByte,
    ByteKind,
    Null,
    Dead,
    Range,
    ConstWrite,
    Overflow,
    Shift,
    Divide,
    Flag,
    PointerOrder,
    Inbounds,
    Unreachable,
    Callee,
    Free,
    Overlap,
    Format,
    Abort,
    Depth,
    Output,
    Names,
    LiveMemory,
}

impl Trap {
    /// The trap's word in reports.
    pub fn word(self) -> &'static str
        ensures { result.now ≡ trap_word self }
    {
        match self {
            Trap::UnsetRegister => "unset-register",
            Trap::UnsetByte => "unset-byte",
            Trap::ByteKind => "byte-kind",
            Trap::Null => "null",
            Trap::Dead => "dead",
            Trap::Range => "range",
            Trap::ConstWrite => "const-write",
            Trap::Overflow => "overflow",
            Trap::Shift => "shift",
            Trap::Divide => "divide",
            Trap::Flag => "flag",
            Trap::PointerOrder => "pointer-order",
            Trap::Inbounds => "inbounds",
            Trap::Unreachable => "unreachable",
            Trap::Callee => "callee",
            Trap::Free => "free",
            Trap::Overlap => "overlap",
            Trap::Format => "format",
            Trap::Abort => "abort",
            Trap::Depth => "depth",
            Trap::Output => "output",
            Trap::Names => "names",
            Trap::LiveMemory => "live-memory",
        }
    }
}

/// What a turn on a worker's copy may fail at.
#[derive(Clone, Copy, Debug, PartialEq, Eq)]
pub enum CheckKind {
    Trap,
    Budget,
    Left,
    Input,
    Separation,
    PrivateRead,
    PrivateWrite,
    Lifetime,
    Value,
}

/// What a failed check tells: a number, a trap's word, or a class of objects.
#[derive(Clone, Copy, Debug, PartialEq, Eq)]
pub enum Kept {
    Number(u64),
    Word(Trap),
    Of(Heap),
}

/// A failed check.
#[derive(Clone, Copy, Debug, PartialEq, Eq)]
pub struct CheckFault {
    pub kind: CheckKind,
    pub kept: Kept,
}

/// Why a call of memory fails. Only a memory with checks answers `Check`.
#[derive(Clone, Copy, Debug, PartialEq, Eq)]
pub enum Fault {
    Trap(Trap),
    Check(CheckFault),
    Memory,
}

impl From<Trap> for Fault {
    ghost use Rattle.mem_image.specs.declared.fault.Fault.TheVariants.{Trap as TrapFault};

    ghost from_gives = { λ trap fault. fault ≡ TrapFault trap };

    fn from(trap: Trap) -> Fault {
        Fault::Trap(trap)
    }
}

impl From<CheckFault> for Fault {
    ghost use Rattle.mem_image.specs.declared.fault.Fault.TheVariants.{Check};

    ghost from_gives = { λ check fault. fault ≡ Check check };

    fn from(check: CheckFault) -> Fault {
        Fault::Check(check)
    }
}

impl From<want::Memory> for Fault {
    ghost use Rattle.mem_image.specs.declared.fault.Fault.TheVariants.{Memory as MemoryFault};

    ghost from_gives = { λ _ fault. fault ≡ MemoryFault };

    fn from(_error: want::Memory) -> Fault {
        Fault::Memory
    }
}
