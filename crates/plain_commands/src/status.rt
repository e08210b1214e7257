//! The statuses of the process, each by its name.

/// The run ended, or the module was accepted.
pub const ENDED: u8 = 0;

/// The run trapped.
pub const TRAPPED: u8 = 1;

/// The budget of the run was spent.
pub const SPENT: u8 = 2;

/// The module was refused.
pub const REFUSED: u8 = 3;

/// The words of the command line were refused, or asked for help.
pub const USAGE: u8 = 4;

/// A read failed.
pub const READ_FAULT: u8 = 5;

/// A write failed.
pub const WRITE_FAULT: u8 = 6;

/// Memory was refused.
pub const MEMORY: u8 = 7;

/// A file has more bytes than its limit.
pub const TOO_LONG: u8 = 8;
