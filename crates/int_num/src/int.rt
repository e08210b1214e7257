//! An integer of a width.
ghost use Rattle.std.specs.Prelude.{◌≡◌, ◌<◌, ◌≤◌, ◌^◌};
ghost use Rattle.int_num.specs.Integer.{IsWidth, IsInteger};

use std::marker::Model;

/// An integer of 1 to 64 bits. What the bits stand for, an unsigned number or a signed one in two's complement, is the
/// operation's choice.
#[derive(Clone, Copy, Debug, PartialEq, Eq)]
pub struct Int {
    width: u32,
    bits: u64,
}

impl Model for Int {
    ghost use Rattle.int_num.specs.Integer.{Integer, IsInteger};

    ghost Value = { Integer };

    ghost view = { λ n. record { width = n.width; bits = n.bits } };

    ghost invariant = { λ n. IsInteger (record { width = n.width; bits = n.bits }) };

    ghost inverse = { λ n. record { width = n.width; bits = n.bits } };
}

impl Int {
    pub fn new(width: u32, bits: u64) -> Int
        requires width { IsWidth width }
        requires bits { bits < 2 ^ width }
        ensures { result ≡ record { width = width; bits = bits } }
    {
        Int { width, bits }
    }

    /// The number of bits, 1 to 64.
    pub fn width(self) -> u32
        ensures value { result ≡ self.width }
        ensures range { IsWidth result }
    {
        self.width
    }

    /// The bits, as an unsigned number below 2^width.
    pub fn bits(self) -> u64
        ensures value { result ≡ self.bits }
        ensures range { IsInteger self }
    {
        self.bits
    }
}
