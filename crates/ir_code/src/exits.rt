//! Terminators with their names resolved.
ghost use Rattle.std.specs.Prelude.{◌≡◌, ◌+◌, ◌≤◌, ◌^◌, length, IfOk, Some};
ghost use Rattle.ir_code.specs.Places.{exit_at};
ghost use Rattle.ir_code.specs.Families.{jump, branch, case_at, cases_at, switch};

use crate::cases::Cases;
use crate::families::{bits_of, operand};
use crate::lookups::Lookups;
use crate::op::{Op, Scalar};
use crate::places::Places;
use ir_tree::instruction::{Case, Operand as Named};
use ir_tree::nodes::{NameId, TypeId};
use pv_base::want::Memory;
use std::alloc::Global;
use std::marker::Model;

/// Where a block's edges lead, and the number of the first of them.
#[derive(Drop)]
pub(crate) struct Exits {
    pub(crate) first: u32,
    pub(crate) targets: Places,
}

impl Model for Exits {
    ghost use Rattle.ir_code.specs.Exits.{Leading};
    ghost use Rattle.std.specs.Prelude.{◌+◌, ◌≤◌, ◌^◌, length};

    ghost Value = { Leading };

    ghost view = { λ e. record { first = e.first; targets = e.targets } };

    ghost invariant = { λ e. e.first + length e.targets ≤ 2 ^ 32 };
}

impl Exits {
    /// The number of the edge to the block of a label.
    fn edge(&self, labels: &Places, label: NameId) -> Option<u32>
        ensures { result ≡ exit_at labels.now self.now.targets self.now.first label }
    {
        let to = labels.place(label)?;
        let place = self.targets.place(to)?;
        Some(self.first + place)
    }
}

pub(crate) fn jump(exits: &Exits, labels: &Places, target: NameId) -> Option<Op>
    ensures { result ≡ jump (exit_at labels.now exits.now.targets exits.now.first) target }
{
    let edge = exits.edge(labels, target)?;
    Some(Op::Jump { edge })
}

pub(crate) fn branch(
    lookups: &Lookups,
    registers: &Places,
    exits: &Exits,
    labels: &Places,
    condition: Named,
    on_true: NameId,
    on_false: NameId,
) -> Option<Op>
    ensures { result ≡ branch lookups.now registers.now (exit_at labels.now exits.now.targets exits.now.first) condition on_true on_false }
{
    let condition = operand(lookups, registers, Scalar::Int(1), condition)?;
    let on_true = exits.edge(labels, on_true)?;
    let on_false = exits.edge(labels, on_false)?;
    Some(Op::Branch {
        condition,
        on_true,
        on_false,
    })
}

/// A case's bits and edge.
fn case(
    lookups: &Lookups,
    exits: &Exits,
    labels: &Places,
    of: Scalar,
    case: Case,
) -> Option<(u64, u32)>
    ensures { result ≡ case_at lookups.now (exit_at labels.now exits.now.targets exits.now.first) of case }
{
    let bits = bits_of(lookups.fixed(of, case.value)?)?;
    let edge = exits.edge(labels, case.to)?;
    Some((bits, edge))
}

/// The cases of a switch on a type, where all can be resolved.
fn cases(
    alloc: Global,
    lookups: &Lookups,
    exits: &Exits,
    labels: &Places,
    of: Scalar,
    all: &[Case],
) -> Result<Option<Cases>, Memory>
    ensures { IfOk result (λ r. r ≡ cases_at lookups.now (exit_at labels.now exits.now.targets exits.now.first) of all.now) }
{
    let mut cases = Cases::new(alloc);
    for one in all {
        match case(lookups, exits, labels, of, *one) {
            Some((bits, edge)) => cases.add(bits, edge)?,
            None => return Ok(None),
        }
    }
    Ok(Some(cases))
}

pub(crate) fn switch(
    alloc: Global,
    lookups: &Lookups,
    registers: &Places,
    exits: &Exits,
    labels: &Places,
    of: TypeId,
    value: Named,
    default: NameId,
    all: &[Case],
) -> Result<Option<Op>, Memory>
    ensures { IfOk result (λ r. r ≡ switch lookups.now registers.now (exit_at labels.now exits.now.targets exits.now.first) of value default all.now) }
{
    let of = match lookups.scalar(of) {
        Some(of) => of,
        None => return Ok(None),
    };
    let value = match operand(lookups, registers, of, value) {
        Some(value) => value,
        None => return Ok(None),
    };
    let default = match exits.edge(labels, default) {
        Some(default) => default,
        None => return Ok(None),
    };
    match cases(alloc, lookups, exits, labels, of, all)? {
        Some(cases) => Ok(Some(Op::Switch {
            value,
            default,
            cases,
        })),
        None => Ok(None),
    }
}
