//! What is found once of a module, by the numbers of its types, constants and functions.
ghost use Rattle.std.specs.Prelude.{◌≡◌, slice_index_or, slice_get};
ghost use Rattle.ir_code.specs.declared.lookups.Linkage.TheVariants as linkage;
ghost use Rattle.ir_code.specs.Places.{place_of};
ghost use Rattle.ir_code.specs.Fixed.{zero_of};
ghost use Rattle.ir_code.specs.Tables.{scalar_at, scalar_or_pointer, size_at, type_of, fixed_of, fixed_at, external_of};

use crate::op::{Fixed, Scalar};
use crate::places::Places;
use int_num::int::Int;
use ir_tree::nodes::{ConstantId, NameId, TypeId};
use pv_base::external::External;
use pv_base::list::List;
use std::marker::Model;

/// A constant: one whose value does not rest on its type, or `zeroinitializer`.
#[derive(Clone, Copy)]
pub enum Constant {
    Is(Fixed),
    Zero,
}

/// How a call of a function by its name is made.
#[derive(Clone, Copy)]
pub enum Linkage {
    /// The module defines it.
    Defined,
    /// It is declared, and the machine knows it.
    External(External),
    /// It is declared, and the machine does not know it.
    Unknown,
}

/// The external of a linkage.
pub(crate) fn external_of(linkage: Linkage) -> Option<External>
    ensures { result ≡ external_of linkage }
{
    match linkage {
        Linkage::External(external) => Some(external),
        Linkage::Defined | Linkage::Unknown => None,
    }
}

/// `zeroinitializer`
fn zero_of(of: Scalar) -> Option<Fixed>
    ensures { result ≡ zero_of (type_of of) }
{
    match of {
        Scalar::Int(width) => {
            if 1 <= width && width <= 64 {
                Some(Fixed::Int(Int::new(width, 0)))
            } else {
                None
            }
        }
        Scalar::Pointer => Some(Fixed::Null),
    }
}

/// A constant at a type.
fn fixed_of(of: Scalar, constant: Constant) -> Option<Fixed>
    ensures { result ≡ fixed_of of constant }
{
    match constant {
        Constant::Is(value) => Some(value),
        Constant::Zero => zero_of(of),
    }
}

/// The types of registers and the sizes by the number of a type, constants by that of a constant, and functions by name.
#[derive(Drop)]
pub(crate) struct Lookups {
    pub(crate) scalars: List<Option<Scalar>>,
    pub(crate) sizes: List<Option<u64>>,
    pub(crate) constants: List<Option<Constant>>,
    pub(crate) functions: Places,
    pub(crate) linkages: List<Linkage>,
}

impl Model for Lookups {
    ghost use Rattle.ir_code.specs.Tables.{Tables};

    ghost Value = { Tables };

    ghost view = { λ l. record { scalars = l.scalars; sizes = l.sizes; constants = l.constants; functions = l.functions; linkages = l.linkages } };
}

impl Lookups {
    /// The type of a number, where a register may have it.
    pub(crate) fn scalar(&self, of: TypeId) -> Option<Scalar>
        ensures { result ≡ scalar_at self.now of }
    {
        match self.scalars.as_slice().get(of as usize) {
            Some(scalar) => *scalar,
            None => None,
        }
    }

    /// The same, and `ptr` in place of another type.
    pub(crate) fn scalar_or_pointer(&self, of: TypeId) -> Scalar
        ensures { result ≡ scalar_or_pointer self.now of }
    {
        self.scalar(of).unwrap_or(Scalar::Pointer)
    }

    /// The size in bytes of a type.
    pub(crate) fn size(&self, of: TypeId) -> Option<u64>
        ensures { result ≡ size_at self.now of }
    {
        match self.sizes.as_slice().get(of as usize) {
            Some(size) => *size,
            None => None,
        }
    }

    /// The constant of a number at a type.
    pub(crate) fn fixed(&self, of: Scalar, constant: ConstantId) -> Option<Fixed>
        ensures { result ≡ fixed_at self.now of constant }
    {
        match self.constants.as_slice().get(constant as usize) {
            Some(Some(constant)) => fixed_of(of, *constant),
            _ => None,
        }
    }

    /// The first function of a name.
    pub(crate) fn function(&self, name: NameId) -> Option<u32>
        ensures { result ≡ place_of self.now.functions name }
    {
        self.functions.place(name)
    }

    /// How the function of a number is called.
    pub(crate) fn linkage(&self, function: u32) -> Linkage
        ensures { result ≡ slice_index_or self.now.linkages function linkage.Unknown }
    {
        match self.linkages.as_slice().get(function as usize) {
            Some(linkage) => *linkage,
            None => Linkage::Unknown,
        }
    }
}
