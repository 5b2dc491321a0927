// The accesses of a call that has several: the two of a split and the four of a burst. Where each of them is, and what refuses the call before the
// first.
#![tactic(auto)]

ghost use Rattle.std.specs.Prelude.{◌≡◌, cond, ◌&&◌, ◌-◌, ◌/◌, ◌%◌, ◌^◌, ◌<◌, ltb};
ghost use Rattle.refusals.specs.Paper.{paper_verdict, ◌gives◌};
ghost use Rattle.registers.specs.Record.{record_of};
ghost use Rattle.banks.specs.Setup.{setup_of};
ghost use Rattle.banks.specs.Judge.{not_ready};
ghost use Rattle.calls.specs.Calls.{next_doubleword, beat_address};
ghost use Rattle.calls.specs.Spans.{by_burst};
ghost use Rattle.address_map.specs.CodeSelection.{selection};
ghost use Rattle.address_map.specs.CodeRoute.{paper_route, cell_by};
ghost use Rattle.access.specs.CodeAccess.{is_allowed};

use access::is_allowed;
use address_map::{Route, cell_at};
use banks::MEGABYTE_DOUBLEWORDS;
use refusals::Refusal;
use registers::Registers;

// How many doublewords there are.
const DOUBLEWORDS: u32 = 536870912;

// MEM-17: the address of the doubleword after that of an address. After the last one comes the first; no split gets there (REF-7).
pub fn next_doubleword(address: u32) -> u32
    ensures { result ≡ next_doubleword address % 2 ^ 32 }
{
    8 * ((address / 8 + 1) % DOUBLEWORDS)
}

// The route of the doubleword after that of an address, if `to` is the route of the address: the same within a megabyte.
pub fn route_after(registers: &[u8; 256], to: Route, address: u32) -> Route
    ensures { paper_route result ≡ cond (ltb (address / 8 % 2 ^ 17) (2 ^ 17 - 1)) (paper_route to) (not_ready (setup_of (record_of registers.now)) gives selection (setup_of (record_of registers.now)) (next_doubleword address % 2 ^ 32 / 2 ^ 20)) }
{
    if address / 8 % MEGABYTE_DOUBLEWORDS < MEGABYTE_DOUBLEWORDS - 1 {
        return to;
    }
    let next = next_doubleword(address);
    address_map::route(Registers { bytes: *registers }, next)
}

// MEM-14: where beat i of a burst is.
pub fn beat_address(address: u32, i: u32) -> u32
    ensures { result ≡ beat_address address i }
{
    32 * (address / 32) + (address % 32 + 8 * (i % 4)) % 32
}

// The cell of beat i of a burst, whose line lies in one megabyte.
#[inline(always)]
pub fn beat_cell(to: Route, address: u32, i: u32) -> Option<usize>
    ensures { result ≡ cell_by to (beat_address address i) }
{
    cell_at(to, beat_address(address, i))
}

// REF-19, REF-20: the refusal, if any, of a burst of `count` bytes at an address.
pub fn judge_burst(address: u32, count: usize) -> Result<(), Refusal>
    ensures { paper_verdict result ≡ by_burst address count }
{
    if address % 8 != 0 {
        return Err(Refusal::Misaligned);
    }
    if count != 32 {
        return Err(Refusal::NotCacheLine);
    }
    Ok(())
}

// REF-9 of the four beats of a burst.
pub fn are_allowed(bytes: usize, to: Route, address: u32) -> bool
    ensures value { result ≡ (is_allowed bytes (cell_by to (beat_address address 0)) && is_allowed bytes (cell_by to (beat_address address 1))) && (is_allowed bytes (cell_by to (beat_address address 2)) && is_allowed bytes (cell_by to (beat_address address 3))) }
    ensures bound { bytes < 2 ^ 64 }
{
    is_allowed(bytes, beat_cell(to, address, 0))
        & is_allowed(bytes, beat_cell(to, address, 1))
        & (is_allowed(bytes, beat_cell(to, address, 2))
            & is_allowed(bytes, beat_cell(to, address, 3)))
}
