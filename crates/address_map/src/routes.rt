// Where an address goes.
ghost use Rattle.std.specs.Prelude.{◌≡◌, ◌+◌, ◌/◌, ◌%◌, ◌^◌, ◌<◌};
ghost use Rattle.address_map.specs.CodeRoute.{route_by, bank_in, first_in, bits_in, cell_by};

// Stands for a bank if none holds the address.
pub const NO_BANK: u32 = 8;

// Stands for a bank if the set-up is not ready.
pub const NOT_READY: u32 = 9;

// The number of the route if the set-up is not ready: NOT_READY at the bank's place.
pub(crate) const UNREADY: u64 = 144;

// One number, which is returned in a register: how many bits number the megabytes of the bank's cells in its lowest four bits, the bank in the
// next four, the bank's first cell in the upper half; with NO_BANK the number of all cells.
#[derive(Clone, Copy)]
pub struct Route {
    pub number: u64,
}

// A route as one number: the bits lowest, then the bank, then its first cell.
pub(crate) fn packed(bank: u32, first: u32, bits: u32) -> u64
    requires { (bank < 16) × (bits < 16) }
    ensures { (bank_in (route_by result) ≡ bank) × (first_in (route_by result) ≡ first) × (bits_in (route_by result) ≡ bits) }
{
    4294967296 * (first as u64) + (16 * bank + bits) as u64
}

// The bank of a route, NO_BANK or NOT_READY.
pub fn bank_of(to: Route) -> u32
    ensures { result ≡ bank_in to }
{
    (to.number / 16 % 16) as u32
}

// The first cell of its bank.
pub(crate) fn first_of(to: Route) -> u32
    ensures { result ≡ first_in to }
{
    (to.number / 4294967296) as u32
}

// How many bits number the megabytes of its bank.
pub(crate) fn bits_of(to: Route) -> u32
    ensures value { result ≡ bits_in to }
    ensures bound { result < 16 }
{
    (to.number % 16) as u32
}

// MAP-3: the number of an address's cell within a bank of 2^(17 + bits) cells, from the whole address and not from its distance to the bank's
// start.
pub(crate) fn cell_in_bank(to: Route, address: u32) -> u32
    ensures { result ≡ address / 8 % 2 ^ (17 + bits_in to) }
{
    (((address >> 3) as u64) & ((1u64 << (17 + bits_of(to))) - 1)) as u32
}

// MAP-6: the number of an address's cell, by the route of an address of the same megabyte, if a bank is selected.
#[inline(always)]
pub fn cell_at(to: Route, address: u32) -> Option<usize>
    ensures { result ≡ cell_by to address }
{
    if NO_BANK <= bank_of(to) {
        return None;
    }
    Some(first_of(to) as usize + cell_in_bank(to, address) as usize)
}
