// Reads, over a record and cells that are lent. A read is judged first, in the order of the refusals; only then are its accesses performed, one after
// the other, and each is reported before the next.
#![tactic(auto)]

ghost use Rattle.std.specs.Prelude.{◌≡◌, true, false, [], ◌∷◌, ◌-◌, ◌/◌, ◌^◌, ◌≤◌, ◌<◌, length};
ghost use Rattle.refusals.specs.Paper.{◌gives◌};
ghost use Rattle.registers.specs.Record.{record_of};
ghost use Rattle.banks.specs.Setup.{setup_of};
ghost use Rattle.banks.specs.Judge.{not_ready};
ghost use Rattle.ecc.specs.Columns.{columns};
ghost use Rattle.calls.specs.Calls.{read_in, crosses, room, next_doubleword};
ghost use Rattle.calls.specs.State.{lent_state};
ghost use Rattle.calls.specs.Answers.{leaves, effect_of};
ghost use Rattle.machine.specs.Calls.{read_call};
ghost use Rattle.address_map.specs.CodeSelection.{selection};
ghost use Rattle.address_map.specs.CodeRoute.{paper_route, target_of};
ghost use Rattle.targets.specs.CodeTargets.{carried_out};

use access::{admit, crosses_end, fetch, is_allowed, judge_count};
use address_map::{Route, cell_at, route};
use byte_lanes::{copy_across, copy_out};
use calls::{Answer, Kinds};
use parts::{next_doubleword, route_after};
use refusals::Refusal;
use registers::Registers;

// A read inside one doubleword, whose cell is k.
fn read_inside(
    registers: &mut [u8; 256],
    cells: &[u8],
    k: Option<usize>,
    address: u32,
    buffer: &mut [u8],
) -> Answer
    requires { crosses address (length buffer.old) ≡ false }
    ensures { leaves result (lent_state registers.new cells.now) buffer.new ≡ effect_of (carried_out (lent_state registers.old cells.now) ((target_of k, read_in address (length buffer.old)) ∷ [])) buffer.old }
{
    if !is_allowed(cells.len(), k) {
        return Err(Refusal::NotLent);
    }
    let found = fetch(registers, cells, k, address);
    copy_out(found.doubleword, address, buffer);
    Ok(Kinds::of([found.kind]))
}

// A read over the end of a doubleword, whose two cells are k and l.
fn read_across(
    registers: &mut [u8; 256],
    cells: &[u8],
    k: Option<usize>,
    l: Option<usize>,
    address: u32,
    buffer: &mut [u8],
) -> Answer
    requires { (crosses address (length buffer.old) ≡ true) × (length buffer.old ≤ 8) × (next_doubleword address < 2 ^ 32) }
    ensures { leaves result (lent_state registers.new cells.now) buffer.new ≡ effect_of (carried_out (lent_state registers.old cells.now) ((target_of k, read_in address (room address)) ∷ (target_of l, read_in (next_doubleword address) (length buffer.old - room address)) ∷ [])) buffer.old }
{
    if !(is_allowed(cells.len(), k) & is_allowed(cells.len(), l)) {
        return Err(Refusal::NotLent);
    }
    let low = fetch(registers, cells, k, address);
    let high = fetch(registers, cells, l, next_doubleword(address));
    copy_across(low.doubleword, high.doubleword, address, buffer);
    Ok(Kinds::of([low.kind, high.kind]))
}

// A read over the end of a doubleword, if `to` is the route of its address.
fn read_split(
    registers: &mut [u8; 256],
    cells: &[u8],
    to: Route,
    address: u32,
    buffer: &mut [u8],
) -> Answer
    requires { (crosses address (length buffer.old) ≡ true) × (paper_route to ≡ (not_ready (setup_of (record_of registers.old)) gives selection (setup_of (record_of registers.old)) (address / 2 ^ 20))) }
    ensures { leaves result (lent_state registers.new cells.now) buffer.new ≡ read_call columns (lent_state registers.old cells.now) address buffer.old }
{
    admit(to, judge_count(address, buffer.len()))?;
    let k = cell_at(to, address);
    let after = route_after(registers, to, address);
    let l = cell_at(after, next_doubleword(address));
    read_across(registers, cells, k, l, address, buffer)
}

// MEM-3, MEM-17: a read of as many bytes as the buffer has.
pub fn read_in_place(
    registers: &mut [u8; 256],
    cells: &[u8],
    address: u32,
    buffer: &mut [u8],
) -> Answer
    ensures { leaves result (lent_state registers.new cells.now) buffer.new ≡ read_call columns (lent_state registers.old cells.now) address buffer.old }
{
    let to = route(Registers { bytes: *registers }, address);
    if crosses_end(address, buffer.len()) {
        return read_split(registers, cells, to, address, buffer);
    }
    admit(to, judge_count(address, buffer.len()))?;
    let k = cell_at(to, address);
    read_inside(registers, cells, k, address, buffer)
}
