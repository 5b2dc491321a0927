// Burst writes. A cache line lies in one bank; the cell of each beat is found by the route of the line.
#![tactic(auto)]

ghost use Rattle.std.specs.Prelude.{◌≡◌, [], length};
ghost use Rattle.ecc.specs.Columns.{columns};
ghost use Rattle.calls.specs.Calls.{beat_address, beat_bytes, write_in};
ghost use Rattle.calls.specs.State.{lent_state};
ghost use Rattle.calls.specs.Answers.{leaves, effect_of};
ghost use Rattle.machine.specs.Calls.{burst_write_call};
ghost use Rattle.targets.specs.CodeTargets.{carried_out, beat_targets};

use access::admit;
use address_map::{Route, route};
use calls::{Answer, Kinds};
use eight_bytes::number_at;
use parts::{are_allowed, beat_address, beat_cell, judge_burst};
use refusals::Refusal;
use registers::Registers;
use stores::write_full;

// The beats of a burst write, by the route of its line.
fn write_beats(
    registers: &mut [u8; 256],
    cells: &mut [u8],
    to: Route,
    address: u32,
    bytes: &[u8],
) -> Answer
    requires { length bytes.now ≡ 32 }
    ensures { leaves result (lent_state registers.new cells.new) [] ≡ effect_of (carried_out (lent_state registers.old cells.old) (beat_targets to address (λ i. write_in (beat_address address i) (beat_bytes bytes.now i)))) [] }
{
    if !are_allowed(cells.len(), to, address) {
        return Err(Refusal::NotLent);
    }
    let a = number_at(bytes, 0);
    let k = beat_cell(to, address, 0);
    let first = write_full(registers, cells, k, beat_address(address, 0), a);
    let b = number_at(bytes, 8);
    let l = beat_cell(to, address, 1);
    let second = write_full(registers, cells, l, beat_address(address, 1), b);
    let c = number_at(bytes, 16);
    let m = beat_cell(to, address, 2);
    let third = write_full(registers, cells, m, beat_address(address, 2), c);
    let d = number_at(bytes, 24);
    let n = beat_cell(to, address, 3);
    let fourth = write_full(registers, cells, n, beat_address(address, 3), d);
    Ok(Kinds::of([first, second, third, fourth]))
}

// MEM-13, MEM-15: a burst write.
pub fn burst_write_in_place(
    registers: &mut [u8; 256],
    cells: &mut [u8],
    address: u32,
    bytes: &[u8],
) -> Answer
    ensures { leaves result (lent_state registers.new cells.new) [] ≡ burst_write_call columns (lent_state registers.old cells.old) address bytes.now }
{
    let to = route(Registers { bytes: *registers }, address);
    admit(to, judge_burst(address, bytes.len()))?;
    write_beats(registers, cells, to, address, bytes)
}
