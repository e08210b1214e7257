//! The shadow of a worker's private objects.
ghost use Rattle.std.specs.Prelude.{◌≡◌, ◌≤◌, ◌==◌, ℕ, [], IfOk, IsTrue, map, replicate, option_map};
ghost use Rattle.std.specs.List.{IsDistinct};
ghost use Rattle.std.specs.List.Sorted.{IsStrictlySortedBy};
ghost use Rattle.std.specs.Ordering.{nat_cmp};
ghost use Rattle.std.specs.Result.{result_unwrap_or};
ghost use Rattle.privacy_check.specs.Shadows.{MayAccess, untouched, next_period, shadows_after, told};
ghost use Rattle.privacy_check.specs.Views.{codes_of, names_of, Has};

use crate::access::{Access, BadCode};
use crate::object::{has_range, touch_range};
use pv_base::list::List;
use pv_base::place::Place;
use pv_base::want::Memory;
use shadow_codes::codes::{Code, UNTOUCHED, reset};
use std::alloc::Global;
use std::collections::BTreeMap;
use std::marker::Model;

/// One code for each byte of each private object of a worker's copy. An object is found by its name in logarithmic time,
/// and an access costs its length.
#[derive(Drop)]
pub struct Shadow {
    objects: BTreeMap<u32, Vec<Code>>,
}

impl Model for Shadow {
    ghost use Rattle.privacy_check.specs.Views.{Table, table_of};

    ghost Value = { Table };

    ghost view = { λ s. table_of (λ v. v.items) s.objects.entries };
}

impl Shadow {
    /// Objects of these names and sizes, in bytes, of which nothing was read or written.
    pub fn new(alloc: Global, sizes: &List<(u32, u64)>) -> Result<Shadow, Memory>
        requires { IsDistinct (λ a b. a == b) (map (λ s. s.0) sizes.now) }
        ensures { IfOk result (λ s. Has s (untouched sizes.now)) }
    {
        let mut objects = BTreeMap::new(alloc);
        for size in sizes.as_slice() {
            let codes = untouched_codes(alloc, size.1 as usize)?;
            objects.insert(size.0, codes)?;
        }
        Ok(Shadow { objects })
    }

    /// Whether an access may be asked for: its range lies in an object, and no code there is above the stamp. It costs
    /// the length; a caller whose stamps do not fall within a period knows it without asking.
    pub fn may_access(&self, at: Place, len: u64, beta: Code) -> bool
        ensures true_where { IsTrue result → MayAccess (codes_of self.now) at len beta }
        ensures false_else { MayAccess (codes_of self.now) at len beta → IsTrue result }
    {
        match self.objects.get(&at.name) {
            Some(codes) => has_range(codes.as_slice(), at.offset, len, beta),
            None => false,
        }
    }

    /// A read of `len` bytes by the turn with stamp `beta`. Where some byte's value is of another turn of this worker,
    /// the answer is the first such byte, and nothing changes.
    pub fn read(&mut self, at: Place, len: u64, beta: Code) -> Result<(), BadCode>
        requires range { MayAccess (codes_of self.old) at len beta }
        requires stamp { 3 ≤ beta }
        ensures answer { result ≡ told (shadows_after Access.Read beta at len (codes_of self.old)) }
        ensures codes { Has self.new (result_unwrap_or (shadows_after Access.Read beta at len (codes_of self.old)) (codes_of self.old)) }
    {
        self.touch(Access::Read, at, len, beta)
    }

    /// A write of `len` bytes by the turn with stamp `beta`. Where this worker read some byte's value from before the
    /// period, the answer is the first such byte, and nothing changes.
    pub fn write(&mut self, at: Place, len: u64, beta: Code) -> Result<(), BadCode>
        requires range { MayAccess (codes_of self.old) at len beta }
        requires stamp { 3 ≤ beta }
        ensures answer { result ≡ told (shadows_after Access.Write beta at len (codes_of self.old)) }
        ensures codes { Has self.new (result_unwrap_or (shadows_after Access.Write beta at len (codes_of self.old)) (codes_of self.old)) }
    {
        self.touch(Access::Write, at, len, beta)
    }

    /// The codes of the object of that name, in the order of its bytes.
    pub fn codes(&self, name: u32) -> Option<&[Code]>
        ensures { option_map (λ codes. codes.now) result ≡ codes_of self.now name }
    {
        match self.objects.get(&name) {
            Some(codes) => Some(codes.as_slice()),
            None => None,
        }
    }

    /// The names of the objects, rising, once each.
    pub fn names(&self, alloc: Global) -> Result<List<u32>, Memory>
        ensures all { IfOk result (λ names. names ≡ names_of self.now) }
        ensures rising { IfOk result (λ names. IsStrictlySortedBy nat_cmp names) }
    {
        let mut names = List::new(alloc);
        for name in self.objects.keys() {
            names.push(*name)?;
        }
        Ok(names)
    }

    // An access to a range.
    fn touch(&mut self, access: Access, at: Place, len: u64, beta: Code) -> Result<(), BadCode>
        requires range { MayAccess (codes_of self.old) at len beta }
        requires stamp { 3 ≤ beta }
        ensures answer { result ≡ told (shadows_after access beta at len (codes_of self.old)) }
        ensures codes { Has self.new (result_unwrap_or (shadows_after access beta at len (codes_of self.old)) (codes_of self.old)) }
    {
        let codes = match self.objects.get_mut(&at.name) {
            Some(codes) => codes,
            None => return Ok(()),
        };
        touch_range(access, codes.as_mut_slice(), at.offset, len, beta)
    }

    /// The next period: what was written is old, and what was read is forgotten.
    pub fn end_period(&mut self)
        ensures { Has self.new (next_period (codes_of self.old)) }
    {
        self.objects.retain(|_, codes| {
            reset(codes.as_mut_slice());
            true
        });
    }
}

// So many codes of bytes that nothing has touched.
fn untouched_codes(alloc: Global, size: usize) -> Result<Vec<Code>, Memory>
    ensures { IfOk result (λ v. v.items ≡ replicate size 0) }
{
    let codes = vec![in alloc; UNTOUCHED; size]?;
    Ok(codes)
}
