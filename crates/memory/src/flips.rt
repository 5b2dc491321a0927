// Flips.
ghost use Rattle.std.specs.Prelude.{◌≡◌, [], ◌∷◌, ◌<◌, eqb};
ghost use Rattle.std.proofs.Math.Option.{some};
ghost use Rattle.refusals.specs.Paper.{paper_verdict, refuse, ◌else◌};
ghost use Rattle.ecc.specs.Columns.{columns};
ghost use Rattle.registers.specs.declared.Registers.{Registers};
ghost use Rattle.calls.specs.Calls.{flip_in};
ghost use Rattle.calls.specs.Spans.{by_bit};
ghost use Rattle.calls.specs.State.{state, lent_state};
ghost use Rattle.calls.specs.Answers.{leaves, effect_of};
ghost use Rattle.machine.specs.Calls.{flip_call};
ghost use Rattle.address_map.specs.CodeRoute.{bank_in};
ghost use Rattle.targets.specs.CodeTargets.{carried_out};

use access::{admit, is_lent};
use address_map::{NO_BANK, Route, bank_of, cell_at, route};
use calls::{Answer, Kind, Kinds};
use refusals::Refusal;
use registers::Registers;
use stores::flip;

// REF-8: the refusal, if any, of a flip bit.
fn judge_bit(bit: u32) -> Result<(), Refusal>
    ensures { paper_verdict result ≡ by_bit bit }
{
    if 71 < bit {
        return Err(Refusal::BitOutOfRange);
    }
    Ok(())
}

// REF-8, REF-10: the refusal, if any, by the bit and the bank.
fn judge_flip(to: Route, bit: u32) -> Result<(), Refusal>
    ensures { paper_verdict result ≡ (by_bit bit else refuse (eqb (bank_in to) 8) (10 ∷ [])) }
{
    judge_bit(bit)?;
    if bank_of(to) == NO_BANK {
        return Err(Refusal::FlipWithoutBank);
    }
    Ok(())
}

// A flip in cell k; it changes no register (ERR-8).
fn flip_inside(cells: &mut [u8], k: usize, address: u32, bit: u32) -> Answer
    ensures { (r : Registers) → leaves result (state r cells.new) [] ≡ effect_of (carried_out (state r cells.old) ((some k, flip_in address bit) ∷ [])) [] }
{
    if !is_lent(cells.len(), k) {
        return Err(Refusal::NotLent);
    }
    flip(cells, k, bit);
    Ok(Kinds::of([Kind::Flipped]))
}

// MEM-7: a flip of one of bits 0 to 71.
pub fn flip_in_place(registers: &[u8; 256], cells: &mut [u8], address: u32, bit: u32) -> Answer
    ensures { leaves result (lent_state registers.now cells.new) [] ≡ flip_call columns (lent_state registers.now cells.old) address bit }
{
    let to = route(Registers { bytes: *registers }, address);
    admit(to, judge_flip(to, bit))?;
    match cell_at(to, address) {
        Some(k) => flip_inside(cells, k, address, bit),
        None => Err(Refusal::FlipWithoutBank),
    }
}
