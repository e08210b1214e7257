//! The faults of a module: where one stands, and its cause.
use pv_base::place::Site;

/// Where a fault stands. A site has a number up to and including the number of its function's instructions: the last one
/// is where the first instruction of an empty last block would be.
#[derive(Clone, Copy, Debug, PartialEq, Eq)]
pub enum CheckSite {
    /// The initialiser of a global, by its number.
    Global(u32),
    At(Site),
    Whole,
}

/// The cause of a fault. Of the causes met at one place the first in this order is answered.
#[derive(Clone, Copy, Debug, PartialEq, Eq)]
pub enum CheckCause {
    /// An operand, a label, a callee or a global of an initialiser is not defined.
    UnknownName,
    /// An operand's type is not the one that the instruction, the callee, the result or the initialiser needs.
    TypeDiffers,
    /// A block is empty, does not end in a terminator, or has one earlier.
    Terminator,
    /// An edge goes to the entry block.
    EntryHasPreds,
    /// A phi stands after another instruction, or its labels are not the blocks with an edge to its block, or it has two
    /// different operands for one block.
    PhiEdges,
    /// An `alloca` stands outside the entry block, or its count is no constant.
    AllocaPlace,
    /// A declared function is called that is not known with its type, or a volatile flag is not `false`.
    External,
    /// No function `main` is defined.
    NoMain,
    /// The defined function `main` is neither `i32 ()` nor `i32 (i32, ptr)`.
    MainType,
}

/// A fault: where it stands, and its cause.
#[derive(Clone, Copy, Debug, PartialEq, Eq)]
pub struct CheckError {
    pub at: CheckSite,
    pub cause: CheckCause,
}
