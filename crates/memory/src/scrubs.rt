// Scrubs.
ghost use Rattle.std.specs.Prelude.{◌≡◌, [], ◌∷◌};
ghost use Rattle.ecc.specs.Columns.{columns};
ghost use Rattle.calls.specs.Calls.{scrub_in};
ghost use Rattle.calls.specs.State.{lent_state};
ghost use Rattle.calls.specs.Answers.{leaves, effect_of};
ghost use Rattle.machine.specs.Calls.{scrub_call};
ghost use Rattle.address_map.specs.CodeRoute.{target_of};
ghost use Rattle.targets.specs.CodeTargets.{carried_out};

use access::{admit, is_allowed};
use address_map::{cell_at, route};
use calls::{Answer, Kinds};
use refusals::Refusal;
use registers::Registers;
use stores::scrub;

// A scrub of cell k.
fn scrub_inside(
    registers: &mut [u8; 256],
    cells: &mut [u8],
    k: Option<usize>,
    address: u32,
) -> Answer
    ensures { leaves result (lent_state registers.new cells.new) [] ≡ effect_of (carried_out (lent_state registers.old cells.old) ((target_of k, scrub_in address) ∷ [])) [] }
{
    if !is_allowed(cells.len(), k) {
        return Err(Refusal::NotLent);
    }
    Ok(Kinds::of([scrub(registers, cells, k, address)]))
}

// MEM-8: a scrub.
pub fn scrub_in_place(registers: &mut [u8; 256], cells: &mut [u8], address: u32) -> Answer
    ensures { leaves result (lent_state registers.new cells.new) [] ≡ scrub_call columns (lent_state registers.old cells.old) address }
{
    let to = route(Registers { bytes: *registers }, address);
    admit(to, Ok(()))?;
    let k = cell_at(to, address);
    scrub_inside(registers, cells, k, address)
}
