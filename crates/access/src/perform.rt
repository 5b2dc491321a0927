// One access that looks at its cell: looked up, put right, reported. A clean cell takes one comparison; what else a syndrome leads to is in `settle`, which
// is not inlined, as `fetch` is everywhere (D-116).
ghost use Rattle.std.specs.Prelude.{◌≡◌};
ghost use Rattle.registers.specs.Record.{record_of};
ghost use Rattle.ecc.specs.Cell.{right_by};
ghost use Rattle.ecc.specs.Doubleword.{bytes_of_number};
ghost use Rattle.calls.specs.State.{lent_state};
ghost use Rattle.machine.specs.Cells.{answer_of};
ghost use Rattle.access.specs.CodeAccess.{lent_cell, settled_by, fetch_at, fetched_with};

use crate::cells::{cell, doubleword};
use calls::Kind;
use correction::with_bit_flipped;
use ecc::Reading;
use error_registers::report;

// MEM-9: what a read without a bank gives.
const ONES: u64 = 0xffffffffffffffff;

// What an access that looks at its cell answers, and the doubleword, put right if it could be.
#[derive(Clone, Copy)]
pub struct Fetched {
    pub kind: Kind,
    pub doubleword: u64,
}

// ECC-6, MEM-19: a reading as an answer.
fn answer_of(reading: Reading) -> Kind
    ensures { result ≡ answer_of reading }
{
    match reading {
        Reading::Clean => Kind::Clean,
        Reading::Corrected(bit) => Kind::Corrected(bit),
        Reading::Uncorrectable => Kind::Uncorrectable,
    }
}

// ECC-7: a stored doubleword, put right if it could be.
#[tactic(auto, unfolding(ecc::specs::Cell::right_by))]
fn righted(reading: Reading, stored: u64) -> u64
    ensures { bytes_of_number result ≡ right_by reading (bytes_of_number stored) }
{
    match reading {
        Reading::Corrected(bit) => with_bit_flipped(stored, bit),
        Reading::Clean | Reading::Uncorrectable => stored,
    }
}

// What a syndrome means, once that is reported. Few cells have one other than 0.
#[inline(never)]
fn settle(registers: &mut [u8; 256], syndrome: u8, address: u32) -> Reading
    ensures { (result, record_of registers.new) ≡ settled_by syndrome address (record_of registers.old) }
{
    let reading = syndrome_table::reading(syndrome);
    report(registers, answer_of(reading), address);
    reading
}

// MEM-3, MEM-9: reads the doubleword of cell k, if there is one, at an address. A clean cell is not reported (ERR-8).
#[inline(always)]
pub fn fetch(registers: &mut [u8; 256], cells: &[u8], k: Option<usize>, address: u32) -> Fetched
    ensures { fetched_with result (lent_state registers.new cells.now) ≡ fetch_at (lent_cell cells.now k) (lent_state registers.old cells.now) address }
{
    let Some(cell) = cell(cells, k) else {
        report(registers, Kind::NoBank, address);
        return Fetched {
            kind: Kind::NoBank,
            doubleword: ONES,
        };
    };
    let stored = doubleword(cell);
    let syndrome = check_byte::check(stored) ^ cell[8];
    if syndrome == 0 {
        return Fetched {
            kind: Kind::Clean,
            doubleword: stored,
        };
    }
    let reading = settle(registers, syndrome, address);
    Fetched {
        kind: answer_of(reading),
        doubleword: righted(reading, stored),
    }
}
