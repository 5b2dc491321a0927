// Reads and writes of registers.
#![tactic(auto)]

ghost use Rattle.std.specs.Prelude.{◌≡◌};
ghost use Rattle.refusals.specs.Paper.{paper_verdict, paper_outcome};
ghost use Rattle.register_calls.specs.Calls.{listed, read_only, bad_value, locked, clearing, read_at, declined, new_byte, write_at, paper_written};
ghost use Rattle.registers.specs.Record.{record_of};

use refusals::Refusal;
use registers::Registers;

// What a register write returns: the record after it, which it returns if it was refused too (FORM-1), and whether it was accepted.
#[derive(Clone, Copy)]
pub struct Written {
    pub registers: Registers,
    pub verdict: Result<(), Refusal>,
}

#[tactic(auto, unfolding(crate::specs::Calls::listed))]
fn is_listed(o: u32) -> bool
    ensures { result ≡ listed o }
{
    (0x80 <= o) & (o <= 0xa0)
        | (0xb8 <= o) & (o <= 0xb9)
        | (0xc0 <= o) & (o <= 0xc1)
        | (0xc4 <= o) & (o <= 0xc5)
        | (0xc8 <= o) & (o <= 0xcb)
        | (0xf0 <= o) & (o <= 0xf2)
}

#[tactic(auto, unfolding(crate::specs::Calls::read_only))]
fn is_read_only(o: u8) -> bool
    ensures { result ≡ read_only o }
{
    (0xc8 <= o) & (o <= 0xcb)
}

#[tactic(auto, unfolding(crate::specs::Calls::bad_value))]
fn is_bad_value(o: u8, v: u8) -> bool
    ensures { result ≡ bad_value o v }
{
    ((0x88 <= o) & (o <= 0x8f) | (0x98 <= o) & (o <= 0x9f)) & (3 < v)
        | (o == Registers::MEMORY) & (!(v == 0) & !(v == 8))
}

#[tactic(auto, unfolding(crate::specs::Calls::locked))]
fn is_locked(o: u8) -> bool
    ensures { result ≡ locked o }
{
    (0x80 <= o) & (o <= 0xa0) | (0xf0 <= o) & (o <= 0xf1)
}

#[tactic(auto, unfolding(crate::specs::Calls::clearing))]
fn is_clearing(o: u8) -> bool
    ensures { result ≡ clearing o }
{
    (o == Registers::ERROR_DETECTION_1) | (o == Registers::ERROR_DETECTION_2)
}

// REG-17: a register read.
#[tactic(auto, using(crate::proofs::OffsetLaws::listed_below), unfolding(crate::specs::Calls::read_at))]
pub fn read(r: Registers, offset: u32) -> Result<u8, Refusal>
    ensures { paper_outcome result ≡ read_at r offset }
{
    if is_listed(offset) {
        Ok(r.byte(offset as u8))
    } else {
        Err(Refusal::UnlistedOffset)
    }
}

#[tactic(auto, using(crate::proofs::OffsetLaws::listed_below), unfolding(crate::specs::Calls::declined, crate::specs::Calls::switches_on))]
fn judge_write(r: Registers, offset: u32, v: u8) -> Result<(), Refusal>
    ensures { paper_verdict result ≡ declined r offset v }
{
    if !is_listed(offset) {
        return Err(Refusal::UnlistedOffset);
    }
    let o = offset as u8;
    if is_read_only(o) {
        return Err(Refusal::ReadOnly);
    }
    if is_bad_value(o, v) {
        return Err(Refusal::ValueOutOfRange);
    }
    let on = judging::is_on(r);
    if is_locked(o) & on {
        return Err(Refusal::LockedWhileOn);
    }
    if (o == Registers::MEMORY) & (v == 8) & !on {
        return judging::judge(r);
    }
    Ok(())
}

// REG-10, REG-18: the byte that an accepted write leaves.
#[tactic(auto, unfolding(crate::specs::Calls::new_byte))]
fn new_byte(r: Registers, o: u8, v: u8) -> u8
    ensures { result ≡ new_byte r o v }
{
    if is_clearing(o) {
        r.byte(o) & (255 - v)
    } else {
        v
    }
}

// REG-18: a register write in place; it stores one byte or none.
#[tactic(auto, using(std::proofs::lemmas::Result::err_from_is_err_and, crate::proofs::OffsetLaws::accepted_below), unfolding(crate::specs::Calls::write_at, crate::specs::Calls::written))]
pub fn write_in_place(registers: &mut [u8; 256], offset: u32, value: u8) -> Result<(), Refusal>
    ensures { (paper_verdict result, record_of registers.new) ≡ write_at (record_of registers.old) offset value }
{
    judge_write(Registers { bytes: *registers }, offset, value)?;
    let o = offset as u8;
    registers[o as usize] = new_byte(Registers { bytes: *registers }, o, value);
    Ok(())
}

// REG-18: a register write, with the record after it.
pub fn write(r: Registers, offset: u32, value: u8) -> Written
    ensures { paper_written result ≡ write_at r offset value }
{
    let mut bytes = r.bytes;
    let verdict = write_in_place(&mut bytes, offset, value);
    Written {
        registers: Registers { bytes },
        verdict,
    }
}
