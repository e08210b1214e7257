//! Calls on states, at a header of `main` and at one of a callee.
ghost use Rattle.std.specs.Prelude.{IfOk};
ghost use Rattle.ir_code.specs.Coding.{code_of};
ghost use Rattle.seq_machine.specs.Step.{StateOf};

use checked_code::program::Program;
use int_num::int::Int;
use ir_rules::checked::Checked;
use machine_calls::change::{set_register, skip, unset_register};
use machine_calls::copy::{copy_frame, copy_state};
use machine_calls::place::{has_more, header_here, here, op_here};
use machine_calls::result::result_register;
use machine_calls::turn::{LoopBlocks, run_turn};
use mem_image::image::Image;
use plain_commands::loading::{Loaded, load};
use pv_base::list::List;
use pv_base::want::Memory;
use seq_effects::state::Value;
use seq_machine::state::{Header, State, Stop};
use seq_run::header::run_to_header;
use seq_run::headers::Headers;
use seq_run::start::start;
use std::alloc::Global;
use std::test::Fail;

const MODULE: &str = "define i32 @turns(i32 %a) {
entry:
  br label %turn
turn:
  %k = phi i32 [ 0, %entry ], [ %k2, %turn ]
  %k2 = add i32 %k, 1
  %c = icmp slt i32 %k2, %a
  br i1 %c, label %turn, label %out
out:
  ret i32 %k2
}
define i32 @main() {
entry:
  br label %head
head:
  %i = phi i32 [ 7, %entry ], [ %i2, %head ]
  %x = call i32 @turns(i32 3)
  %i2 = add i32 %i, %x
  %c = icmp slt i32 %i2, 10
  br i1 %c, label %head, label %done
done:
  ret i32 0
}
";

/// The headers of both loops, and one of them again.
const HEADERS: [Header; 3] = [
    Header {
        function: 1,
        block: 1,
    },
    Header {
        function: 0,
        block: 1,
    },
    Header {
        function: 1,
        block: 1,
    },
];

fn checked(alloc: Global) -> Result<Option<Checked>, Memory> {
    match load(alloc, MODULE.as_bytes())? {
        Loaded::Accepted(checked) => Ok(Some(checked)),
        Loaded::Refused(_) => Ok(None),
    }
}

/// Where the top frame stands and what its first register holds, the number of frames and of steps.
fn shown(alloc: Global, state: &State<Image>) -> Result<String, Memory> {
    let mut text = format!(in alloc; "{} frames, {} steps", state.frames.len(), state.steps)?;
    if let Some(frame) = state.frames.as_slice().last() {
        let frame = copy_frame(frame)?;
        text.push_str(format!(in alloc; ", place {}", frame.place)?.as_str())?;
        match frame.registers.get(0) {
            Some(Some(Value::Int(n))) => {
                text.push_str(format!(in alloc; ", register {}", n.bits())?.as_str())?;
            }
            _ => text.push_str(", no register")?,
        }
    }
    Ok(text)
}

/// What the calls say of a state.
fn place_line(
    alloc: Global,
    program: &Program,
    headers: &Headers,
    state: &State<Image>,
) -> Result<String, Memory>
    requires { StateOf (code_of program.now) state.now }
{
    let code = program.code();
    let site = here(code, state);
    let to = result_register(op_here(code, state));
    let header = header_here(code, headers, state);
    let more = has_more(code, state);
    Ok(format!(in alloc;
        "site {} {}, result {to:?}, header {header:?}, more {more}\n",
        site.function, site.place
    )?)
}

/// What the calls leave of a copy of the state, and the state itself.
fn change_lines(alloc: Global, program: &Program, state: &State<Image>) -> Result<String, Memory>
    requires { StateOf (code_of program.now) state.now }
{
    let code = program.code();
    let mut copy = copy_state(state)?;
    if has_more(code, state) && state.steps < 1000 {
        skip(code, &mut copy);
    }
    let skipped = shown(alloc, &copy)?;
    set_register(&mut copy, 0, Value::Int(Int::new(32, 42)));
    let set = shown(alloc, &copy)?;
    unset_register(&mut copy, 0);
    let unset = shown(alloc, &copy)?;
    let kept = shown(alloc, state)?;
    Ok(format!(in alloc; "skipped {skipped}\nset {set}\nunset {unset}\nkept {kept}\n")?)
}

const WANTED: &str = "AtHeader(0) site 1 2, result Some(1), header Some(0), more true
skipped 1 frames, 2 steps, place 2, register 7
set 1 frames, 2 steps, place 2, register 42
unset 1 frames, 2 steps, place 2, no register
kept 1 frames, 1 steps, place 1, register 7
turn Left, 1 frames, 16 steps, place 0, register 7
AtHeader(1) site 0 2, result Some(2), header Some(1), more true
skipped 2 frames, 4 steps, place 2, register 3
set 2 frames, 4 steps, place 2, register 42
unset 2 frames, 4 steps, place 2, no register
kept 2 frames, 3 steps, place 1, register 3
turn Arrived, 2 frames, 6 steps, place 1, register 3
";

/// How the turn of a loop of one block ends that begins at a copy of the state.
fn turn_line(
    alloc: Global,
    program: &Program,
    state: &State<Image>,
    header: Header,
) -> Result<String, Memory>
    requires { StateOf (code_of program.now) state.now }
{
    let blocks = List::from_slice(alloc, &[header.block])?;
    let of = LoopBlocks::new(alloc, program.code(), header, &blocks)?;
    let mut copy = copy_state(state)?;
    let end = run_turn(program, &mut copy, b"", 100, &of)?;
    let after = shown(alloc, &copy)?;
    Ok(format!(in alloc; "turn {end:?}, {after}\n")?)
}

/// The lines of the next header at which a run stands.
fn next_lines(
    alloc: Global,
    program: &Program,
    headers: &Headers,
    state: &mut State<Image>,
    header: Header,
) -> Result<String, Memory>
    requires { StateOf (code_of program.now) state.old }
    ensures { IfOk result (λ _. StateOf (code_of program.now) state.new) }
{
    let stop = run_to_header(program, state, b"", 100, headers)?;
    let place = place_line(alloc, program, headers, state)?;
    let changes = change_lines(alloc, program, state)?;
    let turn = turn_line(alloc, program, state, header)?;
    Ok(format!(in alloc; "{stop:?} {place}{changes}{turn}")?)
}

/// The lines of the first two headers at which a run stands.
fn lines(alloc: Global, program: &Program) -> Result<String, Memory> {
    let list = List::from_slice(alloc, &HEADERS)?;
    let headers = Headers::new(alloc, program.code(), &list)?;
    let mut state = start(program)?;
    let mut text = next_lines(alloc, program, &headers, &mut state, HEADERS[0])?;
    text.push_str(next_lines(alloc, program, &headers, &mut state, HEADERS[1])?.as_str())?;
    Ok(text)
}

#[test]
fn calls_on_states(rt: HostRuntime) -> Result<(), Fail> {
    let alloc = rt.alloc();
    if let Some(checked) = checked(alloc)? {
        let program = Program::new(alloc, checked)?;
        let text = lines(alloc, &program)?;
        assert_eq!(rt; text.as_str(), WANTED);
        let number = program.checked().module().functions().len();
        assert_eq!(rt; program.into_checked().module().functions().len(), number);
    } else {
        assert!(rt; false);
    }
    Ok(())
}
