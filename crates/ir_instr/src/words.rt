//! The words that begin instructions, and what words stand for.

ghost use Rattle.std.specs.Prelude.{◌≡◌};
ghost use Rattle.ir_text.specs.Tokens.{among};
ghost use Rattle.ir_instr.specs.Words as spec;

use int_num::ops::{BinOp, CastOp, Pred};
use ir_text::leaves::is_among;

/// The operation on two integers of a word.
#[tactic(auto, unfolding(crate::specs::Words::meaning_of))]
pub fn operation(word: &[u8]) -> Option<BinOp>
    ensures { result ≡ spec.meaning_of spec.operations word.now }
{
    if word == b"add".as_slice() {
        return Some(BinOp::Add);
    }
    if word == b"sub".as_slice() {
        return Some(BinOp::Sub);
    }
    if word == b"mul".as_slice() {
        return Some(BinOp::Mul);
    }
    if word == b"udiv".as_slice() {
        return Some(BinOp::Udiv);
    }
    if word == b"sdiv".as_slice() {
        return Some(BinOp::Sdiv);
    }
    if word == b"urem".as_slice() {
        return Some(BinOp::Urem);
    }
    if word == b"srem".as_slice() {
        return Some(BinOp::Srem);
    }
    if word == b"shl".as_slice() {
        return Some(BinOp::Shl);
    }
    if word == b"lshr".as_slice() {
        return Some(BinOp::Lshr);
    }
    if word == b"ashr".as_slice() {
        return Some(BinOp::Ashr);
    }
    if word == b"and".as_slice() {
        return Some(BinOp::And);
    }
    if word == b"or".as_slice() {
        return Some(BinOp::Or);
    }
    if word == b"xor".as_slice() {
        return Some(BinOp::Xor);
    }
    None
}

/// The change of width of a word.
#[tactic(auto, unfolding(crate::specs::Words::meaning_of))]
pub fn cast(word: &[u8]) -> Option<CastOp>
    ensures { result ≡ spec.meaning_of spec.casts word.now }
{
    if word == b"trunc".as_slice() {
        return Some(CastOp::Trunc);
    }
    if word == b"zext".as_slice() {
        return Some(CastOp::Zext);
    }
    if word == b"sext".as_slice() {
        return Some(CastOp::Sext);
    }
    None
}

/// The comparison of a word.
#[tactic(auto, unfolding(crate::specs::Words::meaning_of))]
pub fn predicate(word: &[u8]) -> Option<Pred>
    ensures { result ≡ spec.meaning_of spec.predicates word.now }
{
    if word == b"eq".as_slice() {
        return Some(Pred::Eq);
    }
    if word == b"ne".as_slice() {
        return Some(Pred::Ne);
    }
    if word == b"ugt".as_slice() {
        return Some(Pred::Ugt);
    }
    if word == b"uge".as_slice() {
        return Some(Pred::Uge);
    }
    if word == b"ult".as_slice() {
        return Some(Pred::Ult);
    }
    if word == b"ule".as_slice() {
        return Some(Pred::Ule);
    }
    if word == b"sgt".as_slice() {
        return Some(Pred::Sgt);
    }
    if word == b"sge".as_slice() {
        return Some(Pred::Sge);
    }
    if word == b"slt".as_slice() {
        return Some(Pred::Slt);
    }
    if word == b"sle".as_slice() {
        return Some(Pred::Sle);
    }
    None
}

/// The words that begin instructions.
pub const OPCODES: &[&[u8]] = &[
    b"add",
    b"sub",
    b"mul",
    b"udiv",
    b"sdiv",
    b"urem",
    b"srem",
    b"shl",
    b"lshr",
    b"ashr",
    b"and",
    b"or",
    b"xor",
    b"trunc",
    b"zext",
    b"sext",
    b"freeze",
    b"icmp",
    b"select",
    b"phi",
    b"alloca",
    b"load",
    b"store",
    b"getelementptr",
    b"call",
    b"ret",
    b"br",
    b"switch",
    b"unreachable",
];

/// Whether a word begins an instruction.
#[tactic(auto, using(ir_text::proofs::Among::any_among), unfolding(ir_text::specs::Tokens::among))]
pub fn is_opcode(text: &[u8]) -> bool
    ensures { result ≡ among spec.opcodes text.now }
{
    is_among(OPCODES, text)
}

/// Whether a word begins an instruction without a result.
#[tactic(auto, using(ir_text::proofs::Among::any_among), unfolding(ir_text::specs::Tokens::among))]
pub fn is_resultless(text: &[u8]) -> bool
    ensures { result ≡ among spec.resultless text.now }
{
    is_among(&[b"store", b"ret", b"br", b"switch", b"unreachable"], text)
}
