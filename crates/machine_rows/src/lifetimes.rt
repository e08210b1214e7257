//! Which objects of which sites are left alive, as a table.
use crate::memories::obj;
use lifetime_check::alive::{Left, left_alive};
use mem_image::fault::Fault;
use mem_image::image::Image;
use mem_image::memory::Mem;
use mem_image::object::Kind;
use pv_base::list::List;
use pv_base::place::{AllocSite, Site};
use pv_base::want::Memory;
use std::alloc::Global;
use std::test::Fail;

fn at(place: u32) -> Site {
    Site { function: 0, place }
}

/// Objects that were made at 5, 7, 5, 9, 7 and 5, of which the third is dead.
fn made(alloc: Global) -> Result<Image, Fault> {
    let mut memory = Image::new(alloc);
    for place in [5, 7, 5, 9, 7, 5] {
        memory.make(at(place), Kind::Heap, 8, false)?;
    }
    memory.release(at(1), obj(2, 0))?;
    Ok(memory)
}

fn sites_of(alloc: Global, places: &[u32]) -> Result<List<AllocSite>, Memory> {
    let mut sites = List::new(alloc);
    for place in places {
        sites.push(AllocSite::At(at(*place)))?;
    }
    Ok(sites)
}

/// A name, places, and the place of the first object of these that is left from that name on, with how many there are.
const LEFT: &[(u32, &[u32], Option<(u32, u64)>)] = &[
    (0, &[], None),
    (0, &[5], Some((5, 2))),
    (1, &[5], Some((5, 1))),
    (0, &[9, 5], Some((5, 3))),
    (1, &[5, 9, 7], Some((7, 4))),
    (0, &[7, 7], Some((7, 2))),
    (0, &[8], None),
    (5, &[7, 9], None),
    (6, &[5, 7, 9], None),
];

fn wanted(row: Option<(u32, u64)>) -> Option<Left> {
    match row {
        Some((place, count)) => Some(Left {
            site: AllocSite::At(at(place)),
            count,
        }),
        None => None,
    }
}

/// The first row that answers otherwise, or for which memory is refused.
fn first_wrong(
    alloc: Global,
    memory: &Image,
    rows: &[(u32, &[u32], Option<(u32, u64)>)],
) -> Option<usize> {
    for row in 0..rows.len() {
        let (from, places, left) = rows[row];
        match sites_of(alloc, places) {
            Ok(short) => {
                if left_alive(memory, from, &short) != wanted(left) {
                    return Some(row);
                }
            }
            Err(_) => return Some(row),
        }
    }
    None
}

#[test]
fn objects_of_other_sites_are_not_counted(rt: HostRuntime) -> Result<(), Fail> {
    let memory = made(rt.alloc())?;
    assert_eq!(rt; first_wrong(rt.alloc(), &memory, LEFT), None);
    Ok(())
}
