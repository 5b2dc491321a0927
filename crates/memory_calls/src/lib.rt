// Memory calls with the record by value, passed in and returned (FORM-1): read, write, flip, scrub, burst read and burst write.
#![tactic(auto)]

ghost use Rattle.std.specs.Prelude.{◌≡◌, []};
ghost use Rattle.ecc.specs.Columns.{columns};
ghost use Rattle.calls.specs.State.{state};
ghost use Rattle.calls.specs.Answers.{leaves};
ghost use Rattle.machine.specs.Calls.{read_call, write_call, flip_call, scrub_call, burst_read_call, burst_write_call};

use calls::Answer;
use registers::Registers;

// The record after a call, and what the call answered.
#[derive(Clone, Copy)]
pub struct Called {
    pub registers: Registers,
    pub answer: Answer,
}

// Each function copies the record itself: one that takes the call as a closure was tried, and what the closure leaves in the lent cells or buffer was not proved.

// MEM-2: a read of as many bytes as the buffer has.
pub fn read(registers: Registers, cells: &[u8], address: u32, buffer: &mut [u8]) -> Called
    ensures { leaves result.answer (state result.registers cells.now) buffer.new ≡ read_call columns (state registers cells.now) address buffer.old }
{
    let mut after_read = registers.bytes;
    let answer = memory::read_in_place(&mut after_read, cells, address, buffer);
    Called {
        registers: Registers { bytes: after_read },
        answer,
    }
}

// MEM-4, MEM-5: a write of these bytes.
pub fn write(registers: Registers, cells: &mut [u8], address: u32, bytes: &[u8]) -> Called
    ensures { leaves result.answer (state result.registers cells.new) [] ≡ write_call columns (state registers cells.old) address bytes.now }
{
    let mut after_write = registers.bytes;
    let answer = memory::write_in_place(&mut after_write, cells, address, bytes);
    Called {
        registers: Registers { bytes: after_write },
        answer,
    }
}

// MEM-7: a flip of one of bits 0 to 71, which changes no register.
pub fn flip(registers: Registers, cells: &mut [u8], address: u32, bit: u32) -> Called
    ensures { leaves result.answer (state result.registers cells.new) [] ≡ flip_call columns (state registers cells.old) address bit }
{
    let bytes = registers.bytes;
    let answer = memory::flip_in_place(&bytes, cells, address, bit);
    Called { registers, answer }
}

// MEM-8: a scrub of the doubleword that holds the address.
pub fn scrub(registers: Registers, cells: &mut [u8], address: u32) -> Called
    ensures { leaves result.answer (state result.registers cells.new) [] ≡ scrub_call columns (state registers cells.old) address }
{
    let mut after_scrub = registers.bytes;
    let answer = memory::scrub_in_place(&mut after_scrub, cells, address);
    Called {
        registers: Registers { bytes: after_scrub },
        answer,
    }
}

// MEM-13: a burst read of a cache line.
pub fn burst_read(registers: Registers, cells: &[u8], address: u32, buffer: &mut [u8]) -> Called
    ensures { leaves result.answer (state result.registers cells.now) buffer.new ≡ burst_read_call columns (state registers cells.now) address buffer.old }
{
    let mut after_reads = registers.bytes;
    let answer = memory::burst_read_in_place(&mut after_reads, cells, address, buffer);
    Called {
        registers: Registers { bytes: after_reads },
        answer,
    }
}

// MEM-13: a burst write of a cache line.
pub fn burst_write(registers: Registers, cells: &mut [u8], address: u32, bytes: &[u8]) -> Called
    ensures { leaves result.answer (state result.registers cells.new) [] ≡ burst_write_call columns (state registers cells.old) address bytes.now }
{
    let mut after_burst = registers.bytes;
    let answer = memory::burst_write_in_place(&mut after_burst, cells, address, bytes);
    Called {
        registers: Registers { bytes: after_burst },
        answer,
    }
}
