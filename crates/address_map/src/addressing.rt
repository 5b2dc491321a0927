// From address to cell.
ghost use Rattle.std.specs.Prelude.{◌≡◌};
ghost use Rattle.banks.specs.Map.{place_of};
ghost use Rattle.address_map.specs.CodeFields.{setup_by};
ghost use Rattle.address_map.specs.CodeSelection.{InBank};
ghost use Rattle.address_map.specs.CodeRoute.{bank_in, first_in, bits_in};

use crate::fields::Fields;
use crate::routes::{Route, bank_of, bits_of, cell_in_bank, first_of};
use crate::sizes::{column_bits, power};
use banks::{Column, Place, Row};

// The place of an address that selects a bank.
pub(crate) fn place_in(fields: &Fields, to: Route, address: u32) -> Place
    requires { InBank (setup_by fields.now) (bank_in to) (first_in to) (bits_in to) }
    ensures { result ≡ place_of (setup_by fields.now) (bank_in to) address }
{
    let n = bank_of(to);
    let w = cell_in_bank(to, address);
    let columns = column_bits(fields.row_code(n), bits_of(to));
    Place {
        bank: n as u8,
        row: Row(w >> columns),
        column: Column(w & (power(columns) - 1)),
        cell: first_of(to) + w,
    }
}
