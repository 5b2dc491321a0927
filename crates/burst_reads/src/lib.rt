// Burst reads. A cache line lies in one bank; the cell of each beat is found by the route of the line.
#![tactic(auto)]

ghost use Rattle.std.specs.Prelude.{◌≡◌, ◌%◌, length};
ghost use Rattle.ecc.specs.Columns.{columns};
ghost use Rattle.calls.specs.Calls.{beat_address, read_in};
ghost use Rattle.calls.specs.State.{lent_state};
ghost use Rattle.calls.specs.Answers.{leaves, effect_of};
ghost use Rattle.machine.specs.Calls.{burst_read_call};
ghost use Rattle.targets.specs.CodeTargets.{carried_out, beat_targets};

use access::{admit, fetch};
use address_map::{Route, route};
use byte_lanes::copy_line;
use calls::{Answer, Kinds};
use parts::{are_allowed, beat_address, beat_cell, judge_burst};
use refusals::Refusal;
use registers::Registers;

// The beats of a burst read, by the route of its line.
fn read_beats(
    registers: &mut [u8; 256],
    cells: &[u8],
    to: Route,
    address: u32,
    buffer: &mut [u8],
) -> Answer
    requires { (address % 8 ≡ 0) × (length buffer.old ≡ 32) }
    ensures { leaves result (lent_state registers.new cells.now) buffer.new ≡ effect_of (carried_out (lent_state registers.old cells.now) (beat_targets to address (λ i. read_in (beat_address address i) 8))) buffer.old }
{
    if !are_allowed(cells.len(), to, address) {
        return Err(Refusal::NotLent);
    }
    let k = beat_cell(to, address, 0);
    let a = fetch(registers, cells, k, beat_address(address, 0));
    let l = beat_cell(to, address, 1);
    let b = fetch(registers, cells, l, beat_address(address, 1));
    let m = beat_cell(to, address, 2);
    let c = fetch(registers, cells, m, beat_address(address, 2));
    let n = beat_cell(to, address, 3);
    let d = fetch(registers, cells, n, beat_address(address, 3));
    copy_line(
        a.doubleword,
        b.doubleword,
        c.doubleword,
        d.doubleword,
        buffer,
    );
    Ok(Kinds::of([a.kind, b.kind, c.kind, d.kind]))
}

// MEM-13, MEM-15: a burst read.
pub fn burst_read_in_place(
    registers: &mut [u8; 256],
    cells: &[u8],
    address: u32,
    buffer: &mut [u8],
) -> Answer
    ensures { leaves result (lent_state registers.new cells.now) buffer.new ≡ burst_read_call columns (lent_state registers.old cells.now) address buffer.old }
{
    let to = route(Registers { bytes: *registers }, address);
    admit(to, judge_burst(address, buffer.len()))?;
    read_beats(registers, cells, to, address, buffer)
}
