// From an address to bank, row, column and cell, and the number of cells; and the banks as a record describes them.
#![tactic(auto)]

ghost use Rattle.std.specs.Prelude.{◌≡◌, ◌/◌, ◌^◌};
ghost use Rattle.refusals.specs.Paper.{paper_outcome, ◌gives◌};
ghost use Rattle.banks.specs.Setup.{setup_of};
ghost use Rattle.banks.specs.Judge.{not_ready};
ghost use Rattle.banks.specs.Map.{paper_mapping, mapped, cell_count};
ghost use Rattle.address_map.specs.CodeSelection.{selection};
ghost use Rattle.address_map.specs.CodeRoute.{route_by, bank_in, first_in, paper_route};

use banks::Place;
use refusals::Refusal;
use registers::Registers;

mod addressing;
mod fields;
mod pairs;
mod pass;
mod routes;
mod sizes;

pub use fields::Fields;
pub use routes::{NO_BANK, NOT_READY, Route, bank_of, cell_at};
pub use sizes::column_bits;

fn route_number(r: Registers, address: u32) -> u64
    ensures result_value { paper_route (route_by result) ≡ (not_ready (setup_of r) gives selection (setup_of r) (address / 2 ^ 20)) }
    ensures counted { bank_in (route_by result) ≡ 8 → first_in (route_by result) ≡ cell_count (setup_of r) }
{
    let fields = Fields::from(r);
    fields.select(address >> 20)
}

// Judges a record, and finds the bank of an address.
pub fn route(r: Registers, address: u32) -> Route
    ensures { paper_route result ≡ (not_ready (setup_of r) gives selection (setup_of r) (address / 2 ^ 20)) }
{
    Route {
        number: route_number(r, address),
    }
}

// MAP-9: the map.
pub fn map(r: Registers, address: u32) -> Result<Option<Place>, Refusal>
    ensures { paper_mapping result ≡ mapped (setup_of r) address }
{
    let fields = Fields::from(r);
    let to = Route {
        number: fields.select(address >> 20),
    };
    match bank_of(to) {
        0..NO_BANK => Ok(Some(addressing::place_in(&fields, to, address))),
        NO_BANK => Ok(None),
        _ => Err(Refusal::NotReady),
    }
}

// MAP-10: the number of cells of a record. No bank reaches the last address, and its route tells the number.
pub fn cell_count(r: Registers) -> Result<u32, Refusal>
    ensures { paper_outcome result ≡ (not_ready (setup_of r) gives cell_count (setup_of r)) }
{
    let to = Route {
        number: route_number(r, 0xffffffff),
    };
    if bank_of(to) <= NO_BANK {
        return Ok(routes::first_of(to));
    }
    Err(Refusal::NotReady)
}
