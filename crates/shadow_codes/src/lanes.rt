//! The loops over codes, 32 at a time. What is left behind the last 32 is for a plain loop.
ghost use Rattle.std.specs.Prelude.{◌≡◌, ◌≤◌, ◌+◌, ◌*◌, ◌/◌, ◌++◌, false, None, length, map, take, drop};
ghost use Rattle.std.specs.Simd.Lanes.{chunk, put_chunk, zip2};
ghost use Rattle.shadow_codes.specs.Codes.{reset_code, first_clash_of, greatest_of, stamps};

use crate::codes::{Code, OLD_WRITE, READ_LIVE_IN, UNTOUCHED};
use std::simd::prelude::*;

const LANES: usize = 32;

// How many of so many codes stand in whole blocks of lanes.
pub fn lanes_of(len: usize) -> usize
    ensures { result ≡ 32 * (len / 32) }
{
    LANES * (len / LANES)
}

// The codes of the first blocks with which the next period begins.
pub fn reset_lanes(codes: &mut [Code], whole: usize)
    requires blocks { whole ≡ 32 * (whole / 32) }
    requires within { whole ≤ length codes.old }
    ensures { codes.new ≡ map reset_code (take whole codes.old) ++ drop whole codes.old }
{
    for block in 0..whole / LANES {
        reset_block(codes, LANES * block);
    }
}

// The 32 codes from there on, with which the next period begins.
fn reset_block(codes: &mut [Code], at: usize)
    requires { at + 32 ≤ length codes.old }
    ensures { codes.new ≡ put_chunk at codes.old (map reset_code (chunk at 32 codes.old)) }
{
    let lanes = u16x32::from_slice(&codes[at..]);
    after_period(lanes).copy_to_slice(&mut codes[at..]);
}

// Each lane's code at the start of the next period.
fn after_period(lanes: u16x32) -> u16x32
    ensures { result ≡ map reset_code lanes }
{
    let unread = lanes
        .simd_eq(u16x32::splat(READ_LIVE_IN))
        .select(u16x32::splat(UNTOUCHED), lanes);
    unread
        .simd_eq(u16x32::splat(UNTOUCHED))
        .select(u16x32::splat(UNTOUCHED), u16x32::splat(OLD_WRITE))
}

// So many codes from the start on, in whole blocks, that no clash stands among them.
pub fn front_without_clash(reads: &[Code], writes: &[Code]) -> usize
    requires { length reads.now ≡ length writes.now }
    ensures within { result ≤ length reads.now }
    ensures free { first_clash_of (take result reads.now) (take result writes.now) ≡ None }
{
    for block in 0..reads.len() / LANES {
        if has_clash(reads, writes, LANES * block) {
            return LANES * block;
        }
    }
    lanes_of(reads.len())
}

// Whether a clash stands among the 32 codes from there on.
fn has_clash(reads: &[Code], writes: &[Code], at: usize) -> bool
    requires of_reads { at + 32 ≤ length reads.now }
    requires of_writes { at + 32 ≤ length writes.now }
    ensures { result ≡ false → first_clash_of (chunk at 32 reads.now) (chunk at 32 writes.now) ≡ None }
{
    let read = u16x32::from_slice(&reads[at..]);
    let written = after_period(u16x32::from_slice(&writes[at..]));
    let hits = read
        .simd_eq(u16x32::splat(READ_LIVE_IN))
        .select(written, u16x32::splat(UNTOUCHED));
    hits.simd_eq(u16x32::splat(OLD_WRITE)).to_bitmask() != 0
}

// In each lane the greatest of the codes of that lane, over the first blocks.
pub fn greatest_in_lanes(codes: &[Code], whole: usize) -> [Code; LANES]
    requires blocks { whole ≡ 32 * (whole / 32) }
    requires within { whole ≤ length codes.now }
    ensures { greatest_of (stamps result) ≡ greatest_of (stamps (take whole codes.now)) }
{
    let mut most = u16x32::splat(UNTOUCHED);
    for block in 0..whole / LANES {
        most = most.simd_max(u16x32::from_slice(&codes[LANES * block..]));
    }
    most.to_array()
}
