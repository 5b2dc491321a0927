// What an answer does to the error registers.
#![tactic(auto)]

ghost use Rattle.std.specs.Prelude.{◌≡◌, cond, ◌<◌};
ghost use Rattle.registers.specs.Record.{record_of};
ghost use Rattle.error_registers.specs.Errors.{bit_set, undetected, with_error_address, detected, triggered, counted, reported};

use calls::Kind;
use registers::Registers;

// A bit is a number below 8, a constant in each call, so a type for it would say no more.
#[tactic(auto, unfolding(crate::specs::Errors::bit_set))]
fn is_set(registers: &[u8; 256], offset: u8, bit: u8) -> bool
    requires { bit < 8 }
    ensures { result ≡ bit_set (record_of registers.now) offset bit }
{
    registers[offset as usize] >> bit & 1 == 1
}

#[tactic(auto, unfolding(crate::specs::Errors::undetected))]
fn is_undetected(registers: &[u8; 256]) -> bool
    ensures { result ≡ undetected (record_of registers.now) }
{
    (registers[Registers::ERROR_DETECTION_1 as usize] == 0)
        & (registers[Registers::ERROR_DETECTION_2 as usize] == 0)
}

// ERR-5, REG-11: the record with this error address.
fn put_address(registers: &mut [u8; 256], address: u32)
    ensures { registers.new ≡ (with_error_address (record_of registers.old) address).bytes }
{
    let at = Registers::ERROR_ADDRESS as usize;
    registers[at..at + 4].copy_from_slice(&address.to_le_bytes());
}

// ERR-5: sets a detection bit, and stores the address if both detection bytes were 00.
#[tactic(auto, unfolding(crate::specs::Errors::detected))]
fn detect(registers: &mut [u8; 256], offset: u8, bit: u8, address: u32)
    requires { bit < 8 }
    ensures { registers.new ≡ (detected (record_of registers.old) offset bit address).bytes }
{
    let first = is_undetected(registers);
    registers[offset as usize] |= 1 << bit;
    if first {
        put_address(registers, address);
    }
}

// ERR-2: the counter, which has just risen, equals its trigger, and this is to be reported.
#[tactic(auto, unfolding(crate::specs::Errors::triggered))]
fn is_triggered(registers: &[u8; 256]) -> bool
    ensures { result ≡ triggered (record_of registers.now) }
{
    (registers[Registers::SINGLE_BIT_COUNTER as usize]
        == registers[Registers::SINGLE_BIT_TRIGGER as usize])
        & is_set(registers, Registers::ERROR_ENABLE_1, 2)
}

// ERR-1: counts a correction. At 255 the counter does not rise, so nothing is reported (ERR-2).
#[tactic(auto, unfolding(crate::specs::Errors::counted, crate::specs::Errors::rose))]
fn count(registers: &mut [u8; 256], address: u32)
    ensures { registers.new ≡ (counted (record_of registers.old) address).bytes }
{
    let corrections = registers[Registers::SINGLE_BIT_COUNTER as usize];
    if corrections < 255 {
        registers[Registers::SINGLE_BIT_COUNTER as usize] = corrections + 1;
        if is_triggered(registers) {
            detect(registers, Registers::ERROR_DETECTION_1, 2, address);
        }
    }
}

// ERR-3, ERR-4: an error whose bit is set in a register of what is enabled is detected, at the same bit of another register.
fn detect_enabled(registers: &mut [u8; 256], enable: u8, detection: u8, bit: u8, address: u32)
    requires { bit < 8 }
    ensures { registers.new ≡ (cond (bit_set (record_of registers.old) enable bit) (detected (record_of registers.old) detection bit address) (record_of registers.old)).bytes }
{
    if is_set(registers, enable, bit) {
        detect(registers, detection, bit, address);
    }
}

// The record after an answer: the bytes that it changes are stored, and no others are touched (ERR-7).
#[tactic(auto, unfolding(crate::specs::Errors::reported))]
pub fn report(registers: &mut [u8; 256], kind: Kind, address: u32)
    ensures { registers.new ≡ (reported kind address (record_of registers.old)).bytes }
{
    match kind {
        Kind::Corrected(_) => count(registers, address),
        Kind::Uncorrectable => detect_enabled(
            registers,
            Registers::ERROR_ENABLE_2,
            Registers::ERROR_DETECTION_2,
            3,
            address,
        ),
        Kind::NoBank => detect_enabled(
            registers,
            Registers::ERROR_ENABLE_1,
            Registers::ERROR_DETECTION_1,
            5,
            address,
        ),
        Kind::Clean | Kind::Stored | Kind::Flipped => {}
    }
}
