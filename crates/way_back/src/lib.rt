// From bank, row and column back to the address.
#![tactic(auto)]

ghost use Rattle.std.specs.Prelude.{◌≡◌, true, cond, ◌+◌, ◌*◌, ◌/◌, ◌^◌, ◌≤◌, ◌<◌, ltb};
ghost use Rattle.refusals.specs.Paper.{paper_outcome};
ghost use Rattle.banks.specs.Setup.{Bounded, setup_of};
ghost use Rattle.banks.specs.Map.{most_cells, cells};
ghost use Rattle.way_back.specs.WayBack.{in_range, back};
ghost use Rattle.way_back.specs.CodeAddress.{address_at};

use banks::{Bank, Column, MEGABYTE_BITS, Row};
use refusals::Refusal;
use registers::Registers;

// `Bounded` is asked of each function: the fields of a `Bank` are public, so its type holds no bound, and a second type of bank would only say it again.
fn is_in_range(b: Bank, row: Row, column: Column) -> bool
    requires { Bounded b }
    ensures { result ≡ in_range b row column }
{
    (row.0 < 1u32 << b.row_bits) & (column.0 < 1u32 << b.column_bits)
}

// The number of the cell at a row and a column, within the bank.
fn cell_in_bank_at(b: Bank, row: Row, column: Column) -> u32
    requires { Bounded b × (in_range b row column ≡ true) }
    ensures value { result ≡ row.0 * 2 ^ b.column_bits + column.0 }
    ensures bound { result < cells b }
{
    row.0 * (1u32 << b.column_bits) + column.0
}

// The first number from `start` on whose remainder modulo n is w.
fn next_doubleword(start: u32, n: u32, w: u32) -> u32
    requires { (start < 1024 * 2 ^ 17) × (n ≤ most_cells) × (w < n) }
    ensures value { result ≡ cond (ltb (start / n * n + w) start) (start / n * n + w + n) (start / n * n + w) }
    ensures bound { result < 2 ^ 28 }
{
    let d = start / n * n + w;
    if d < start { d + n } else { d }
}

fn address(b: Bank, row: Row, column: Column) -> Result<u32, Refusal>
    requires { Bounded b × (in_range b row column ≡ true) }
    ensures { paper_outcome result ≡ address_at b row column }
{
    let d = next_doubleword(
        b.start << MEGABYTE_BITS,
        1u32 << (b.row_bits + b.column_bits),
        cell_in_bank_at(b, row, column),
    );
    if d < (b.last + 1) << MEGABYTE_BITS {
        Ok(d << 3)
    } else {
        Err(Refusal::NoAddress)
    }
}

// BACK-1: the way back. A bank above 7 is decoded as a disabled one.
pub fn way_back(r: Registers, bank: u32, row: Row, column: Column) -> Result<u32, Refusal>
    ensures { paper_outcome result ≡ back (setup_of r) bank row column }
{
    if !judging::is_ready(r) {
        return Err(Refusal::NotReady);
    }
    let b = judging::decode_bank(r, bank);
    if !b.enabled {
        return Err(Refusal::BankOff);
    }
    if !is_in_range(b, row, column) {
        return Err(Refusal::RowOrColumnTooLarge);
    }
    address(b, row, column)
}
