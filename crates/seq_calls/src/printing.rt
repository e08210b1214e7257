//! What `printf` prints, and the arguments whose texts it reads.
ghost use Rattle.std.specs.Prelude.{◌≡◌, ◌≤◌, ◌++◌, option_map, length, slice_get, All, IfOk, OnOk, IfErr, IfSome};
ghost use Rattle.seq_calls.specs.Format.{text_of, next_number, text_number, formatted, text_args, IsPointer};
ghost use Rattle.seq_calls.specs.declared.show.FormatEnd.TheVariants.{Bad};

use crate::directive::{Directive, Piece, first_piece};
use crate::show::{Arg, FormatEnd, show, takes};
use pv_base::bytes::Bytes;
use pv_base::list::List;
use pv_base::want::Memory;
use std::alloc::Global;

/// The number of the next argument behind a piece, or None where the piece traps.
#[tactic(auto, unfolding(crate::specs::Format::text_of))]
fn passes(piece: Piece, args: &List<Arg>, number: usize) -> Option<usize>
    requires { number ≤ length args.now }
    ensures value { result ≡ option_map (λ text. next_number piece number) (text_of piece args.now number) }
    ensures within { IfSome result (λ n. n ≤ length args.now) }
{
    match piece {
        Piece::Byte(_) => Some(number),
        Piece::Wrong => None,
        Piece::Directive(directive) => {
            if number >= args.len() || !takes(directive, args.at(number)) {
                return None;
            }
            Some(number + 1)
        }
    }
}

/// Appends the number where the piece takes a text.
fn note(piece: Piece, number: usize, found: &mut List<u32>) -> Result<(), Memory>
    ensures { OnOk result (found.new ≡ found.old ++ text_number piece number) }
{
    match piece {
        Piece::Directive(Directive::Text) => match u32::try_from(number) {
            Ok(number) => found.push(number),
            Err(_) => Err(Memory),
        },
        _ => Ok(()),
    }
}

/// The numbers of the arguments, from 0 and in order, that the `%s` directives before the first trap take. A number above
/// those of 32 bits counts as want of memory.
pub fn text_args(alloc: Global, format: &[u8], args: &List<Arg>) -> Result<List<u32>, Memory>
    ensures exact { IfOk result (λ found. found ≡ text_args format.now args.now) }
    ensures pointers { IfOk result (λ found. All (λ k. IsPointer (slice_get args.now k)) found) }
{
    let mut found = List::new(alloc);
    let mut at = 0usize;
    let mut number = 0usize;
    while at < format.len() {
        let front = first_piece(&format[at..]);
        match passes(front.piece, args, number) {
            None => return Ok(found),
            Some(next) => {
                note(front.piece, number, &mut found)?;
                number = next;
                at += front.length;
            }
        }
    }
    Ok(found)
}

/// Appends what a piece prints, and gives the number of the next argument. `Bad` where the piece traps.
#[tactic(auto, unfolding(crate::specs::Format::text_of))]
fn print(
    alloc: Global,
    piece: Piece,
    args: &List<Arg>,
    number: usize,
    out: &mut Bytes,
) -> Result<usize, FormatEnd>
    requires { number ≤ length args.now }
    ensures ok { OnOk result (option_map (λ text. out.old ++ text) (text_of piece args.now number) ≡ Some out.new) }
    ensures next { IfOk result (λ n. n ≡ next_number piece number) }
    ensures within { IfOk result (λ n. n ≤ length args.now) }
    ensures bad { IfErr result (λ end. end ≡ Bad → text_of piece args.now number ≡ None) }
{
    match piece {
        Piece::Byte(byte) => match out.push(byte) {
            Ok(()) => Ok(number),
            Err(_) => Err(FormatEnd::Memory),
        },
        Piece::Wrong => Err(FormatEnd::Bad),
        Piece::Directive(directive) => {
            if number >= args.len() {
                return Err(FormatEnd::Bad);
            }
            match show(alloc, directive, args.at(number), out) {
                Ok(()) => Ok(number + 1),
                Err(end) => Err(end),
            }
        }
    }
}

/// What `printf` prints of a format and the arguments behind it. `Bad` where a directive traps: one that is not among those
/// that are taken, one that has no argument, or one whose argument has another type. Arguments that no directive takes are
/// passed over. A pointer whose text was not read prints nothing, so read the texts that `text_args` names first.
pub fn format_text(alloc: Global, format: &[u8], args: &List<Arg>) -> Result<Bytes, FormatEnd>
    ensures ok { IfOk result (λ text. formatted format.now args.now ≡ Some text) }
    ensures bad { IfErr result (λ end. end ≡ Bad → formatted format.now args.now ≡ None) }
{
    let mut out = Bytes::new(alloc);
    let mut at = 0usize;
    let mut number = 0usize;
    while at < format.len() {
        let front = first_piece(&format[at..]);
        match print(alloc, front.piece, args, number, &mut out) {
            Err(end) => return Err(end),
            Ok(next) => {
                number = next;
                at += front.length;
            }
        }
    }
    Ok(out)
}
