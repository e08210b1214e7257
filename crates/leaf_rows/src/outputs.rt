//! Outputs in the order of their turns, whatever the order of the list.
use deferred_output::order::in_turn_order;
use deferred_output::output::TurnOutput;
use pv_base::bytes::Bytes;
use pv_base::list::List;
use pv_base::want::Memory;
use std::alloc::Global;

/// Outputs of turns.
fn parts_of(alloc: Global, turns: &[(u64, &[u8])]) -> Result<List<TurnOutput>, Memory> {
    let mut parts = List::new(alloc);
    for (turn, text) in turns {
        let bytes = Bytes::from_slice(alloc, *text)?;
        parts.push(TurnOutput { turn: *turn, bytes })?;
    }
    Ok(parts)
}

/// The outputs of turns in order.
fn in_order(alloc: Global, turns: &[(u64, &[u8])]) -> Result<Bytes, Memory> {
    let parts = parts_of(alloc, turns)?;
    in_turn_order(alloc, &parts)
}

/// Outputs of turns, and the same in order.
const OUTPUTS: &[(&[(u64, &[u8])], &[u8])] = &[
    (&[], b""),
    (&[(7, b"x")], b"x"),
    (&[(0, b"a"), (1, b""), (2, b"c")], b"ac"),
    (&[(9, b"d"), (5, b"c"), (4, b"bb"), (0, b"a")], b"abbcd"),
    (
        &[(0, b"a"), (2, b"c"), (4, b"e"), (1, b"b"), (3, b"dd")],
        b"abcdde",
    ),
];

/// The first row whose outputs are put into another order, or for which memory is refused.
fn first_disordered(alloc: Global, rows: &[(&[(u64, &[u8])], &[u8])]) -> Option<usize> {
    for row in 0..rows.len() {
        match in_order(alloc, rows[row].0) {
            Ok(bytes) => {
                if bytes.as_slice() != rows[row].1 {
                    return Some(row);
                }
            }
            Err(_) => return Some(row),
        }
    }
    None
}

#[test]
fn outputs_come_in_the_order_of_turns(rt: HostRuntime) {
    assert_eq!(rt; first_disordered(rt.alloc(), OUTPUTS), None);
}
