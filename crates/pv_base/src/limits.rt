//! The limits that several parts of the program speak of.

/// No more bytes of objects are live at once, so the globals of a module have no more together.
pub const LIVE_LIMIT: u64 = 4_194_304;

/// The most bytes of a module, a profile or an input.
pub const FILE_LIMIT: usize = 4_194_304;
