//! What a line says, as a list of numbers.
ghost use Rattle.std.specs.Prelude.{◌≡◌, ◌++◌, ◌∷◌, [], IfOk, OnOk};
ghost use Rattle.profile_lines.specs.Keys.{key_of, name_key, site_key, object_key, fields_key, rank as rank_of};

use crate::lines::Line;
use crate::profile::{ObjectName, ProfileName, SiteName};
use pv_base::bytes::Bytes;
use pv_base::want::Memory;
use std::alloc::Global;

/// The place of a line's word in the order of a loop's lines.
pub fn rank(line: &Line) -> u64
    ensures { result ≡ rank_of line.now }
{
    match line {
        Line::Loop(_, _) => 0,
        Line::Period(_) => 1,
        Line::Block(_) => 2,
        Line::Phi(_) => 3,
        Line::Use(_) => 4,
        Line::Local(_) => 5,
        Line::Flow(_) => 6,
        Line::Value(_) => 7,
        Line::End => 8,
    }
}

fn add(key: &mut Vec<u64>, number: u64) -> Result<(), Memory>
    ensures { OnOk result (key.new.items ≡ key.old.items ++ number ∷ []) }
{
    match key.push(number) {
        Ok(()) => Ok(()),
        Err(_) => Err(Memory),
    }
}

fn add_bytes(key: &mut Vec<u64>, bytes: &Bytes) -> Result<(), Memory>
    ensures { OnOk result (key.new.items ≡ key.old.items ++ bytes.now) }
{
    for byte in bytes.as_slice() {
        add(key, u64::from(*byte))?;
    }
    Ok(())
}

fn add_name(key: &mut Vec<u64>, name: &ProfileName) -> Result<(), Memory>
    ensures { OnOk result (key.new.items ≡ key.old.items ++ name_key name.now) }
{
    match name {
        ProfileName::Named(bytes) => {
            add(key, 1)?;
            add(key, bytes.len() as u64)?;
            add_bytes(key, bytes)
        }
        ProfileName::Numbered(number) => {
            add(key, 0)?;
            add(key, *number)
        }
    }
}

fn add_site(key: &mut Vec<u64>, site: &SiteName) -> Result<(), Memory>
    ensures { OnOk result (key.new.items ≡ key.old.items ++ site_key site.now) }
{
    add_name(key, &site.function)?;
    add(key, site.place)
}

fn add_object(key: &mut Vec<u64>, object: &ObjectName) -> Result<(), Memory>
    ensures { OnOk result (key.new.items ≡ key.old.items ++ object_key object.now) }
{
    match object {
        ObjectName::Global(name) => {
            add(key, 0)?;
            add_name(key, name)
        }
        ObjectName::At(site) => {
            add(key, 1)?;
            add_site(key, site)
        }
    }
}

fn add_fields(key: &mut Vec<u64>, line: &Line) -> Result<(), Memory>
    ensures { OnOk result (key.new.items ≡ key.old.items ++ fields_key line.now) }
{
    match line {
        Line::Loop(function, header) => {
            add_name(key, function)?;
            add_name(key, header)
        }
        Line::Period(turns) => add(key, u64::from(*turns)),
        Line::Block(name) => add_name(key, name),
        Line::Phi(line) => add_name(key, &line.register),
        Line::Use(line) => {
            add_site(key, &line.at)?;
            add(key, line.slot)?;
            add_object(key, &line.object)
        }
        Line::Local(site) => add_site(key, site),
        Line::Flow(line) => {
            add_object(key, &line.object)?;
            add(key, line.offset)?;
            add(key, line.length)
        }
        Line::Value(line) => {
            add_name(key, &line.global)?;
            add(key, line.offset)?;
            add_bytes(key, &line.bytes)
        }
        Line::End => Ok(()),
    }
}

/// What a line says, as a list of numbers: two lines have the same list exactly where they say the same, but that a phi
/// counts by its register alone.
pub fn key(alloc: Global, line: &Line) -> Result<Vec<u64>, Memory>
    ensures { IfOk result (λ key. key.items ≡ key_of line.now) }
{
    let mut key = Vec::new(alloc);
    add(&mut key, rank(line))?;
    add_fields(&mut key, line)?;
    Ok(key)
}
