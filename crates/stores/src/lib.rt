// The accesses that change a cell: full and short writes, scrubs, flips. As in `access`, what is no lent cell counts as no bank.
#![tactic(auto)]

ghost use Rattle.std.specs.Prelude.{◌≡◌, cond, [], MatchOption};
ghost use Rattle.std.proofs.Math.Option.{none, some};
ghost use Rattle.ecc.specs.Columns.{columns};
ghost use Rattle.ecc.specs.CheckCode.{flip_bit};
ghost use Rattle.ecc.specs.Doubleword.{bytes_of_number};
ghost use Rattle.ecc.specs.Lending.{cell_at, put_cell, is_lent};
ghost use Rattle.calls.specs.Calls.{write_in, scrub_in, got};
ghost use Rattle.calls.specs.State.{lent_state};
ghost use Rattle.machine.specs.Calls.{access_at};
ghost use Rattle.access.specs.CodeAccess.{lent_cell, short_bytes, is_right, is_corrected};

use access::{fetch, is_lent};
use calls::Kind;
use error_registers::report;
use merging::with_bytes;

mod cells;

use cells::{flip_at, store};

// The cell that is meant, if it is lent.
#[inline(always)]
fn lent(cells: &[u8], k: Option<usize>) -> Option<usize>
    ensures { MatchOption result (lent_cell cells.now k ≡ none) (λ j. lent_cell cells.now k ≡ some j) }
{
    let k = k?;
    if is_lent(cells.len(), k) {
        return Some(k);
    }
    None
}

// MEM-4: a write of eight bytes does not look at the old cell.
#[inline(always)]
pub fn write_full(
    registers: &mut [u8; 256],
    cells: &mut [u8],
    k: Option<usize>,
    address: u32,
    doubleword: u64,
) -> Kind
    ensures { (got result [], lent_state registers.new cells.new) ≡ access_at columns (lent_cell cells.old k) (lent_state registers.old cells.old) (write_in address (bytes_of_number doubleword)) }
{
    let Some(k) = lent(cells, k) else {
        report(registers, Kind::NoBank, address);
        return Kind::NoBank;
    };
    store(cells, k, doubleword);
    Kind::Stored
}

// What a short write stores again.
fn is_right(kind: Kind) -> bool
    ensures { result ≡ is_right kind }
{
    matches!(kind, Kind::Clean | Kind::Corrected(_))
}

// What a scrub stores again.
fn is_corrected(kind: Kind) -> bool
    ensures { result ≡ is_corrected kind }
{
    matches!(kind, Kind::Corrected(_))
}

// MEM-5, MEM-6: a shorter write corrects, merges and stores, unless the cell is uncorrectable. Its bytes are the lowest `count` of the value.
#[inline(always)]
pub fn write_short(
    registers: &mut [u8; 256],
    cells: &mut [u8],
    k: Option<usize>,
    address: u32,
    count: usize,
    value: u64,
) -> Kind
    ensures { (got result [], lent_state registers.new cells.new) ≡ access_at columns (lent_cell cells.old k) (lent_state registers.old cells.old) (write_in address (short_bytes address count value)) }
{
    let old = fetch(registers, cells, k, address);
    if let Some(k) = k {
        if is_right(old.kind) {
            store(cells, k, with_bytes(old.doubleword, address, count, value));
        }
    }
    old.kind
}

// MEM-8: a scrub stores a corrected cell again.
pub fn scrub(registers: &mut [u8; 256], cells: &mut [u8], k: Option<usize>, address: u32) -> Kind
    ensures { (got result [], lent_state registers.new cells.new) ≡ access_at columns (lent_cell cells.old k) (lent_state registers.old cells.old) (scrub_in address) }
{
    let old = fetch(registers, cells, k, address);
    if let Some(k) = k {
        if is_corrected(old.kind) {
            store(cells, k, old.doubleword);
        }
    }
    old.kind
}

// MEM-7: a flip inverts a bit, whatever the columns are; a number above 71 is no bit.
pub fn flip(cells: &mut [u8], k: usize, bit: u32)
    ensures { cells.new ≡ cond (is_lent cells.old k) (put_cell cells.old k (flip_bit (cell_at cells.old k) bit)) cells.old }
{
    if is_lent(cells.len(), k) & (bit < 72) {
        flip_at(cells, k, bit as usize);
    }
}
