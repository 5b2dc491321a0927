// Cell k of those that a caller lends, replaced or flipped.
ghost use Rattle.std.specs.Prelude.{◌≡◌, true, ◌<◌, length};
ghost use Rattle.ecc.specs.Columns.{columns};
ghost use Rattle.ecc.specs.CheckCode.{flip_bit};
ghost use Rattle.ecc.specs.Cell.{encode};
ghost use Rattle.ecc.specs.Doubleword.{bytes_of_number};
ghost use Rattle.ecc.specs.Lending.{cell_at, put_cell, is_lent};

use byte_lanes::store_nine;

// MAP-8, FORM-6: stores a doubleword and its check byte in cell k; the nine bytes in the middle of the lent cells are passed on.
#[tactic(auto, using(ecc::proofs::CellLaws::lent_fits))]
pub(crate) fn store(cells: &mut [u8], k: usize, doubleword: u64)
    requires { is_lent cells.old k ≡ true }
    ensures { cells.new ≡ put_cell cells.old k (encode columns (bytes_of_number doubleword)) }
{
    let a = 9 * k;
    store_nine(&mut cells[a..a + 9], correction::encode(doubleword));
}

// ECC-3: inverts a flip bit within nine bytes. The bit is a number and has no type with a bound, since a caller may give any (MEM-7).
fn invert(cell: &mut [u8], b: usize)
    requires { (length cell.old ≡ 9) × (b < 72) }
    ensures { cell.new ≡ flip_bit cell.old b }
{
    let i = b / 8;
    cell[i] = correction::flip_byte(cell[i], b);
}

// FORM-6: inverts a flip bit of cell k. One byte is stored: a wider store would stall the next load.
#[tactic(auto, using(ecc::proofs::CellLaws::lent_fits))]
pub(crate) fn flip_at(cells: &mut [u8], k: usize, b: usize)
    requires { (is_lent cells.old k ≡ true) × (b < 72) }
    ensures { cells.new ≡ put_cell cells.old k (flip_bit (cell_at cells.old k) b) }
{
    let a = 9 * k;
    invert(&mut cells[a..a + 9], b);
}
