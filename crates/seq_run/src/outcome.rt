//! What a run leaves.
ghost use Rattle.std.specs.Prelude.{◌≡◌, ◌<◌, ◌^◌, length, IfOk};
ghost use Rattle.mem_image.specs.Picture.{bytes_at};
ghost use Rattle.seq_run.specs.Outcomes.{global_bytes, outcome_of};

use checked_code::program::Program;
use ir_tree::items::Global as Variable;
use mem_image::image::Image;
use mem_image::object::Byte;
use pv_base::list::List;
use pv_base::want::Memory;
use seq_machine::state::{End, GlobalBytes, Outcome, State};
use std::alloc::Global;

/// The bytes of the object of a name; none where there is no such object.
fn bytes_at(alloc: Global, memory: &Image, name: u32) -> Result<List<Byte>, Memory>
    ensures { IfOk result (λ bytes. bytes ≡ bytes_at name memory.now.objects) }
{
    match memory.find(name) {
        Some(object) => List::from_slice(alloc, object.bytes.as_slice()),
        None => Ok(List::new(alloc)),
    }
}

/// The bytes of the globals that are no constants.
fn global_bytes(
    alloc: Global,
    memory: &Image,
    globals: &[Variable],
) -> Result<List<GlobalBytes>, Memory>
    requires { length globals.now < 2 ^ 32 }
    ensures { IfOk result (λ all. all ≡ global_bytes memory.now.objects 0 globals.now) }
{
    let mut all = List::new(alloc);
    for number in 0..globals.len() {
        let variable = globals[number];
        if !variable.constant {
            let global = number as u32;
            let bytes = bytes_at(alloc, memory, global)?;
            all.push(GlobalBytes { global, bytes })?;
        }
    }
    Ok(all)
}

/// What a run of the program leaves that ended in this way and in this state: the output, the bytes of every global that is no
/// constant, in the order of the text, and the number of steps. It takes time and memory linear in these bytes.
pub fn outcome(program: &Program, state: State<Image>, end: End) -> Result<Outcome, Memory>
    ensures { IfOk result (λ o. o ≡ outcome_of program.now (end, state)) }
{
    let globals = global_bytes(program.alloc(), &state.memory, program.module().globals())?;
    let State {
        frames: _,
        memory: _,
        input_place: _,
        output,
        steps,
    } = state;
    Ok(Outcome {
        end,
        output,
        globals,
        steps,
    })
}
