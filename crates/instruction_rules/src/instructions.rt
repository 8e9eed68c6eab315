//! The rules V5 to V7 on instruction codes and patterns. The old edition of the standard is any edition before that of
//! 2001.
ghost use Rattle.std.specs.Prelude.{◌≡◌, ◌<◌, ◌^◌, length, zip, codes, map, replicate, IfOk};
ghost use Rattle.std.specs.Option.{option_copied};
ghost use Rattle.std.specs.List.{list_all, list_any};
ghost use Rattle.board_defs.specs.declared.device.Symbol.TheVariants.{Zero};
ghost use Rattle.board_defs.specs.DeviceRules.{bit_of};
ghost use Rattle.instruction_rules.specs.Instructions.{has_length, v5, fits_one, fits_zero, opcode_called as the_opcode, first_code as the_first_code, listed_preload_code, is_all_ones, may_preload, same_bit, same_code, may_extest, has_code, extest_holds, v6, ends_in_01, may_be_idcode, v7, settled, settled_code, preload, extest};

use board_defs::{Code, Edition, Symbol};
use bsdl_strings::Opcode;
use std::alloc::{AllocError, Global};
use std::collections::HashSet;

fn one(symbol: Symbol) -> bool
    ensures { result ≡ bit_of symbol }
{
    matches!(symbol, Symbol::One)
}

fn can_be_one(symbol: Symbol) -> bool
    ensures { result ≡ fits_one symbol }
{
    matches!(symbol, Symbol::One | Symbol::Any)
}

fn can_be_zero(symbol: Symbol) -> bool
    ensures { result ≡ fits_zero symbol }
{
    matches!(symbol, Symbol::Zero | Symbol::Any)
}

fn named<'a>(ops: &'a [Opcode], name: &[u8]) -> Option<&'a Opcode>
    ensures { option_copied result ≡ the_opcode name.now ops.now }
{
    ops.iter().find(|op| op.name.bytes() == name)
}

fn first_code<'a>(ops: &'a [Opcode], name: &[u8]) -> Option<&'a Code>
    ensures { option_copied result ≡ the_first_code name.now ops.now }
{
    match named(ops, name) {
        None => None,
        Some(op) => match op.codes.as_slice() {
            [] => None,
            [code, ..] => Some(code),
        },
    }
}

fn preload_code(edition: Edition, ops: &[Opcode]) -> Option<&Code>
    ensures { option_copied result ≡ listed_preload_code edition ops.now }
{
    match edition {
        Edition::Old => first_code(ops, b"SAMPLE"),
        Edition::Of2001 => match first_code(ops, b"PRELOAD") {
            Some(code) => Some(code),
            None => first_code(ops, b"SAMPLE"),
        },
    }
}

fn has_only_ones(code: &Code) -> bool
    ensures { result ≡ is_all_ones code.now }
{
    code.symbols().iter().all(|symbol| one(*symbol))
}

fn has_a_one(code: &Code) -> bool
    ensures { result ≡ list_any bit_of code.now }
{
    code.symbols().iter().any(|symbol| one(*symbol))
}

fn can_preload(edition: Edition, code: Option<&Code>) -> bool
    ensures { result ≡ may_preload edition (option_copied code.entry) }
{
    match code {
        None => false,
        Some(code) => match edition {
            Edition::Old => has_a_one(code) && !has_only_ones(code),
            Edition::Of2001 => !has_only_ones(code),
        },
    }
}

fn are_same(a: Symbol, b: Symbol) -> bool
    ensures { result ≡ same_bit (bit_of a) (bit_of b) }
{
    one(a) == one(b)
}

fn agree(a: &[Symbol], b: &[Symbol]) -> bool
    ensures { result
        ≡ list_all (λ pair. same_bit (bit_of pair.0) (bit_of pair.1)) (zip a.now b.now) }
{
    a.iter().zip(b).all(|(x, y)| are_same(*x, *y))
}

fn is_same(a: &Code, b: &Code) -> bool
    ensures { result ≡ same_code a.now b.now }
{
    a.symbols().len() == b.symbols().len() && agree(a.symbols(), b.symbols())
}

fn can_be_extest(code: Option<&Code>, preload: Option<&Code>) -> bool
    ensures { result ≡ may_extest (option_copied code.entry) (option_copied preload.entry) }
{
    match code {
        None => false,
        Some(code) => {
            if has_only_ones(code) {
                false
            } else {
                match preload {
                    None => true,
                    Some(other) => !is_same(code, other),
                }
            }
        }
    }
}

fn all_can_be_one(code: &Code) -> bool
    ensures { result ≡ list_all fits_one code.now }
{
    code.symbols().iter().all(|symbol| can_be_one(*symbol))
}

fn all_can_be_zero(code: &Code) -> bool
    ensures { result ≡ list_all fits_zero code.now }
{
    code.symbols().iter().all(|symbol| can_be_zero(*symbol))
}

fn some_all_ones(codes: &[Code]) -> bool
    ensures { result ≡ list_any (λ code. list_all fits_one code) codes.now }
{
    codes.iter().any(|code| all_can_be_one(code))
}

fn some_all_zeros(codes: &[Code]) -> bool
    ensures { result ≡ list_any (λ code. list_all fits_zero code) codes.now }
{
    codes.iter().any(|code| all_can_be_zero(code))
}

fn extest_is_right(edition: Edition, ops: &[Opcode]) -> bool
    ensures { result ≡ extest_holds edition ops.now }
{
    match edition {
        Edition::Old => match named(ops, b"EXTEST") {
            None => true,
            Some(op) => some_all_zeros(op.codes.as_slice()),
        },
        Edition::Of2001 => can_be_extest(
            first_code(ops, b"EXTEST"),
            preload_code(Edition::Of2001, ops),
        ),
    }
}

fn bypass_is_right(ops: &[Opcode]) -> bool
    ensures { result ≡ has_code fits_one (the_opcode (codes "BYPASS") ops.now) }
{
    match named(ops, b"BYPASS") {
        None => true,
        Some(op) => some_all_ones(op.codes.as_slice()),
    }
}

/// Checks rule V6. Returns the first instruction without a usable code: 1 for the preload
/// instruction, 2 for EXTEST, and 3 for BYPASS.
///
/// The preload code must be listed and have a 0, and in the old edition also a 1. In the old
/// edition, EXTEST need not be listed; if it is listed, one of its codes must match all zeros. In
/// the 2001 edition, EXTEST must be listed, and its first code must have a 0 and differ from the
/// preload code. BYPASS need not be listed; if it is listed, one of its codes must match all ones.
/// X matches both bits, but counts as 0 in the preload code and in the first EXTEST code.
#[tactic(auto, unfolding(crate::specs::Instructions::v6))]
pub fn wrong_instruction(edition: Edition, ops: &[Opcode]) -> Option<u32>
    ensures { result ≡ v6 edition ops.now }
{
    if !can_preload(edition, preload_code(edition, ops)) {
        Some(1)
    } else if !extest_is_right(edition, ops) {
        Some(2)
    } else if bypass_is_right(ops) {
        None
    } else {
        Some(3)
    }
}

fn ends_in_zero_one(symbols: &[Symbol]) -> bool
    ensures { result ≡ ends_in_01 symbols.now }
{
    match symbols {
        [Symbol::One, Symbol::Zero, ..] => true,
        _ => false,
    }
}

fn is_long(length: u32, code: &Code) -> bool
    ensures { result ≡ has_length length code.now }
{
    code.symbols().len() == length as usize
}

fn can_be_idcode(idcode: &Option<Code>) -> bool
    ensures { result ≡ may_be_idcode idcode.now }
{
    match idcode {
        None => true,
        Some(code) => is_long(32, code),
    }
}

/// Checks rule V7. Returns the number of the first wrong pattern. Pattern 1 is the capture pattern,
/// which must have `ir` symbols, of which the two nearest TDO are 01. Pattern 2 is the IDCODE
/// pattern, which must have 32 symbols if there is one.
#[tactic(auto, unfolding(crate::specs::Instructions::v7))]
pub fn wrong_pattern(ir: u32, capture: &Code, idcode: &Option<Code>) -> Option<u32>
    ensures { result ≡ v7 ir capture.now idcode.now }
{
    if !(is_long(ir, capture) && ends_in_zero_one(capture.symbols())) {
        Some(1)
    } else if can_be_idcode(idcode) {
        None
    } else {
        Some(2)
    }
}

fn are_long(length: u32, codes: &[Code]) -> bool
    ensures { result ≡ list_all (has_length length) codes.now }
{
    codes.iter().all(|code| is_long(length, code))
}

/// Checks rule V5. Returns the number of the first wrong opcode, counted from 1. An opcode is wrong
/// if an earlier opcode has the same name, or if one of its codes does not have `ir` symbols. There
/// must be fewer than 2^32 opcodes.
#[tactic(auto, unfolding(crate::specs::Instructions::v5))]
pub fn wrong_opcode(alloc: Global, ir: u32, ops: &[Opcode]) -> Result<Option<u32>, AllocError>
    requires { length ops.now < 2 ^ 32 }
    ensures { IfOk result (λ item. item ≡ v5 ir ops.now) }
{
    let mut seen: HashSet<&[u8]> = HashSet::new(alloc);
    for (i, op) in ops.iter().enumerate() {
        let name = op.name.bytes();
        let known = seen.contains(name);
        let long = are_long(ir, op.codes.as_slice());
        if known || !long {
            return Ok(Some(i as u32 + 1));
        }
        seen.insert(name)?;
    }
    Ok(None)
}

fn settle(symbol: Symbol) -> Symbol
    ensures { result ≡ settled symbol }
{
    match symbol {
        Symbol::One => Symbol::One,
        Symbol::Zero | Symbol::Any => Symbol::Zero,
    }
}

fn settled_symbols(alloc: Global, symbols: &[Symbol]) -> Result<Vec<Symbol>, AllocError>
    ensures { IfOk result (λ copy. copy.items ≡ map settled symbols.now) }
{
    symbols.iter().map(|symbol| settle(*symbol)).collect(alloc)
}

/// Returns a copy of the code with 0 in place of each X. If there is no code, returns a code
/// without symbols.
fn settled_code(alloc: Global, code: Option<&Code>) -> Result<Code, AllocError>
    ensures { IfOk result (λ copy. copy ≡ settled_code (option_copied code.entry)) }
{
    match code {
        Some(code) => Ok(Code::from_vec(settled_symbols(alloc, code.symbols())?)),
        None => Ok(Code::from_vec(Vec::new(alloc))),
    }
}

/// Returns the preload code, with 0 in place of each X. In the 2001 edition this is the first code
/// of PRELOAD if the description lists that instruction. Otherwise it is the first code of SAMPLE. If
/// there is no such code, the result has no symbols.
#[tactic(auto, unfolding(crate::specs::Instructions::preload))]
pub fn preload(alloc: Global, edition: Edition, ops: &[Opcode]) -> Result<Code, AllocError>
    ensures { IfOk result (λ code. code ≡ preload edition ops.now) }
{
    settled_code(alloc, preload_code(edition, ops))
}

/// Returns the EXTEST code, with 0 in place of each X. In the old edition it consists of `ir`
/// zeros. In the 2001 edition it is the first EXTEST code that the description lists, or has no symbols
/// if there is none.
#[tactic(auto, unfolding(crate::specs::Instructions::extest))]
pub fn extest(alloc: Global, edition: Edition, ir: u32, ops: &[Opcode]) -> Result<Code, AllocError>
    ensures { IfOk result (λ code. code ≡ extest edition ir ops.now) }
{
    match edition {
        Edition::Old => Ok(Code::from_vec(vec![in alloc; Symbol::Zero; ir as usize]?)),
        Edition::Of2001 => settled_code(alloc, first_code(ops, b"EXTEST")),
    }
}
