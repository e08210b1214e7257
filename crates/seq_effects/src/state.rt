//! What registers hold, frames, and what an instruction does.
use int_num::int::Int;
use mem_image::object::Pointer;
use pv_base::bytes::Bytes;
use pv_base::list::List;

/// What a register holds.
#[derive(Clone, Copy, Debug)]
pub enum Value {
    Int(Int),
    Pointer(Pointer),
}

/// A call that has not returned: the function, the block, the instruction by its number in the block, the registers, and
/// the names of the stack objects that it made.
#[derive(Debug, Drop)]
pub struct Frame {
    pub function: u32,
    pub block: u32,
    pub place: u32,
    pub registers: List<Option<Value>>,
    pub own: List<u32>,
}

/// What an instruction does to the frames, to the input's place and to the output.
#[derive(Debug, Drop)]
pub enum Effect {
    /// The next instruction.
    Next,
    /// A register is set, and the next instruction.
    Give {
        to: u32,
        value: Value,
    },
    /// A register holds a new stack object, whose name is the frame's own.
    Keep {
        to: u32,
        name: u32,
    },
    /// The edge of this number is taken.
    Edge {
        edge: u32,
    },
    /// A new frame of a function.
    Enter {
        function: u32,
        registers: List<Option<Value>>,
    },
    /// The top frame ends.
    Back {
        value: Option<Value>,
    },
    /// The run ends.
    Exit {
        code: Int,
    },
    /// A text is printed, and a register is set.
    Print {
        text: Bytes,
        to: Option<u32>,
        value: Value,
    },
    /// The place in the input is this, and a register is set.
    Take {
        place: u64,
        to: Option<u32>,
        value: Value,
    },
}
