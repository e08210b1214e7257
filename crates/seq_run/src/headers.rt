//! The headers of a list, each found by its function and block.
ghost use Rattle.std.specs.Prelude.{◌≡◌, ◌≤◌, ◌^◌, [], length, slice_get, slice_set, position, IfOk};
ghost use Rattle.seq_run.specs.Places.{Notes, NotesIn, ArePlaced, rooms, noted_at, is_at, place_of};

use ir_code::code::{Code, FunctionCode};
use pv_base::list::List;
use pv_base::want::Memory;
use seq_machine::state::Header;
use std::alloc::Global;
use std::marker::Model;

/// There are so many numbers.
const NUMBERS: usize = 4294967296;

/// Headers in a list, with a place for each block of a module: the least of its header, where it has one. Contracts see the list.
/// A block of the module is found by one look, whether it is a header or not.
#[derive(Drop)]
pub struct Headers {
    headers: List<Header>,
    places: List<List<Option<u32>>>,
}

impl Model for Headers {
    ghost use Rattle.std.specs.Prelude.{List as Sequence};
    ghost use Rattle.seq_machine.specs.declared.state.Header.{Header as AHeader};
    ghost use Rattle.seq_run.specs.Places.{AreIndexed};

    ghost Value = { Sequence AHeader };

    ghost view = { λ h. h.headers };

    ghost invariant = { λ h. AreIndexed h.headers h.places };
}

/// A place for each block of these functions, none of which is noted.
fn no_places(alloc: Global, functions: &[FunctionCode]) -> Result<List<List<Option<u32>>>, Memory>
    ensures room { IfOk result (λ places. places ≡ rooms functions.now) }
    ensures none { IfOk result (ArePlaced []) }
{
    let mut places = List::new(alloc);
    for number in 0..functions.len() {
        places.push(List::repeat(alloc, None, functions[number].blocks.len())?)?;
    }
    Ok(places)
}

/// Notes a place at a block, where there is room for it and none is noted yet.
fn note_in(row: &mut List<Option<u32>>, block: usize, place: u32)
    ensures { NotesIn row.old row.new block place }
{
    if block < row.len() && row.at(block).is_none() {
        row.set(block, Some(place));
    }
}

/// Notes the place of a header, where there is room for its block and none is noted yet.
fn note(places: &mut List<List<Option<u32>>>, header: Header, place: u32)
    ensures { Notes places.old places.new header place }
{
    let function = header.function as usize;
    if function < places.len() {
        let empty = List::new(places.alloc());
        let mut row = places.replace(function, empty);
        note_in(&mut row, header.block as usize, place);
        places.set(function, row);
    }
}

/// Notes the places of all of them.
fn note_all(places: &mut List<List<Option<u32>>>, headers: &[Header])
    requires empty { ArePlaced [] places.old }
    requires limit { length headers.now ≤ 2 ^ 32 }
    ensures { ArePlaced headers.now places.new }
{
    for place in 0..headers.len() {
        note(places, headers[place], place as u32);
    }
}

/// What is noted at a block; none where there is no room for it.
fn noted_at(places: &List<List<Option<u32>>>, function: u32, block: u32) -> Option<Option<u32>>
    ensures { result ≡ noted_at places.now function block }
{
    let row = places.get(function as usize)?;
    row.get(block as usize).copied()
}

/// The least place of the header of a block.
fn position_of(headers: &[Header], function: u32, block: u32) -> Option<usize>
    ensures { result ≡ position (is_at function block) headers.now }
{
    headers.iter().position(|header| header.function == function && header.block == block)
}

/// The least place of the header of a block.
fn search(headers: &[Header], function: u32, block: u32) -> Option<u32>
    requires { length headers.now ≤ 2 ^ 32 }
    ensures { result ≡ place_of headers.now function block }
{
    match position_of(headers, function, block) {
        Some(place) => Some(place as u32),
        None => None,
    }
}

impl Headers {
    /// The headers of a list, with room for the blocks of a module, in time linear in both. `Memory` where memory is used up or
    /// there are more than 2^32.
    pub fn new(alloc: Global, code: &Code, headers: &List<Header>) -> Result<Headers, Memory>
        ensures { IfOk result (λ h. h ≡ headers.now) }
    {
        if headers.len() > NUMBERS {
            return Err(Memory);
        }
        let mut places = no_places(alloc, code.functions.as_slice())?;
        note_all(&mut places, headers.as_slice());
        let headers = List::from_slice(alloc, headers.as_slice())?;
        Ok(Headers { headers, places })
    }

    /// The least place in the list of the header of a block. Only a block outside the module is searched for.
    pub fn place(&self, function: u32, block: u32) -> Option<u32>
        ensures { result ≡ place_of self.now function block }
    {
        match noted_at(&self.places, function, block) {
            Some(place) => place,
            None => search(self.headers.as_slice(), function, block),
        }
    }
}
