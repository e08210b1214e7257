//! The functions outside a module that the machine knows.

/// A function that a module may declare and call: of the C library, or an intrinsic of the LLVM Language Reference, with the
/// number of bits that its name ends with.
#[derive(Clone, Copy, Debug, PartialEq, Eq)]
pub enum External {
    Malloc,
    Calloc,
    Free,
    Putchar,
    Puts,
    Getchar,
    Printf,
    Exit,
    Abort,
    /// `llvm.memcpy.p0.p0.iN`, N 32 or 64.
    Memcpy(u32),
    /// `llvm.memmove.p0.p0.iN`, N 32 or 64.
    Memmove(u32),
    /// `llvm.memset.p0.iN`, N 32 or 64.
    Memset(u32),
    /// `llvm.smax.iN`, N 1 to 64.
    Smax(u32),
    /// `llvm.smin.iN`, N 1 to 64.
    Smin(u32),
    /// `llvm.umax.iN`, N 1 to 64.
    Umax(u32),
    /// `llvm.umin.iN`, N 1 to 64.
    Umin(u32),
    LifetimeStart,
    LifetimeEnd,
}
