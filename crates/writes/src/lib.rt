// Writes, over a record and cells that are lent. A write is judged first, in the order of the refusals; only then are its accesses performed, one after
// the other, and each is reported before the next.
#![tactic(auto)]

ghost use Rattle.std.specs.Prelude.{◌≡◌, true, false, [], ◌∷◌, ◌/◌, ◌^◌, ◌≤◌, ◌<◌, length, take, drop};
ghost use Rattle.refusals.specs.Paper.{◌gives◌};
ghost use Rattle.registers.specs.Record.{record_of};
ghost use Rattle.banks.specs.Setup.{setup_of};
ghost use Rattle.banks.specs.Judge.{not_ready};
ghost use Rattle.ecc.specs.Columns.{columns};
ghost use Rattle.calls.specs.Calls.{write_in, crosses, room, next_doubleword};
ghost use Rattle.calls.specs.State.{lent_state};
ghost use Rattle.calls.specs.Answers.{leaves, effect_of};
ghost use Rattle.machine.specs.Calls.{write_call};
ghost use Rattle.address_map.specs.CodeSelection.{selection};
ghost use Rattle.address_map.specs.CodeRoute.{paper_route, target_of};
ghost use Rattle.targets.specs.CodeTargets.{carried_out};

use access::{admit, crosses_end, is_allowed, judge_count, room_at};
use address_map::{Route, cell_at, route};
use calls::{Answer, Kinds};
use merging::gathered;
use parts::{next_doubleword, route_after};
use refusals::Refusal;
use registers::Registers;
use stores::{write_full, write_short};

// A write inside one doubleword, whose cell is k.
fn write_inside(
    registers: &mut [u8; 256],
    cells: &mut [u8],
    k: Option<usize>,
    address: u32,
    bytes: &[u8],
) -> Answer
    requires { crosses address (length bytes.now) ≡ false }
    ensures { leaves result (lent_state registers.new cells.new) [] ≡ effect_of (carried_out (lent_state registers.old cells.old) ((target_of k, write_in address bytes.now) ∷ [])) [] }
{
    if !is_allowed(cells.len(), k) {
        return Err(Refusal::NotLent);
    }
    let value = gathered(bytes);
    if bytes.len() == 8 {
        return Ok(Kinds::of([write_full(registers, cells, k, address, value)]));
    }
    let kind = write_short(registers, cells, k, address, bytes.len(), value);
    Ok(Kinds::of([kind]))
}

// A write over the end of a doubleword, whose two cells are k and l.
fn write_across(
    registers: &mut [u8; 256],
    cells: &mut [u8],
    k: Option<usize>,
    l: Option<usize>,
    address: u32,
    bytes: &[u8],
) -> Answer
    requires { (crosses address (length bytes.now) ≡ true) × (length bytes.now ≤ 8) × (next_doubleword address < 2 ^ 32) }
    ensures { leaves result (lent_state registers.new cells.new) [] ≡ effect_of (carried_out (lent_state registers.old cells.old) ((target_of k, write_in address (take (room address) bytes.now)) ∷ (target_of l, write_in (next_doubleword address) (drop (room address) bytes.now)) ∷ [])) [] }
{
    if !(is_allowed(cells.len(), k) & is_allowed(cells.len(), l)) {
        return Err(Refusal::NotLent);
    }
    let value = gathered(bytes);
    let n = room_at(address);
    let low = write_short(registers, cells, k, address, n, value);
    let next = next_doubleword(address);
    let rest = value >> (8 * n);
    let high = write_short(registers, cells, l, next, bytes.len() - n, rest);
    Ok(Kinds::of([low, high]))
}

// A write over the end of a doubleword, if `to` is the route of its address.
fn write_split(
    registers: &mut [u8; 256],
    cells: &mut [u8],
    to: Route,
    address: u32,
    bytes: &[u8],
) -> Answer
    requires { (crosses address (length bytes.now) ≡ true) × (paper_route to ≡ (not_ready (setup_of (record_of registers.old)) gives selection (setup_of (record_of registers.old)) (address / 2 ^ 20))) }
    ensures { leaves result (lent_state registers.new cells.new) [] ≡ write_call columns (lent_state registers.old cells.old) address bytes.now }
{
    admit(to, judge_count(address, bytes.len()))?;
    let k = cell_at(to, address);
    let after = route_after(registers, to, address);
    let l = cell_at(after, next_doubleword(address));
    write_across(registers, cells, k, l, address, bytes)
}

// MEM-4, MEM-5, MEM-18: a write.
pub fn write_in_place(
    registers: &mut [u8; 256],
    cells: &mut [u8],
    address: u32,
    bytes: &[u8],
) -> Answer
    ensures { leaves result (lent_state registers.new cells.new) [] ≡ write_call columns (lent_state registers.old cells.old) address bytes.now }
{
    let to = route(Registers { bytes: *registers }, address);
    if crosses_end(address, bytes.len()) {
        return write_split(registers, cells, to, address, bytes);
    }
    admit(to, judge_count(address, bytes.len()))?;
    let k = cell_at(to, address);
    write_inside(registers, cells, k, address, bytes)
}
