// What each syndrome means under the columns of ECC-2, looked up in a constant table.
#![tactic(auto)]

ghost use Rattle.std.specs.Prelude.{◌≡◌};
ghost use Rattle.ecc.specs.Columns.{columns};
ghost use Rattle.ecc.specs.CheckCode.{reading_of};
ghost use Rattle.syndrome_table.specs.CodeTable.{reading_by};

use crate::table::{N, SYNDROMES, U};
use ecc::Reading;

mod table;

// What an entry stands for.
fn reading_by(entry: u8) -> Reading
    ensures { result ≡ reading_by entry }
{
    match entry {
        N => Reading::Clean,
        U => Reading::Uncorrectable,
        bit => Reading::Corrected(bit),
    }
}

// ECC-6, FORM-8: what a syndrome means. Its high digit finds the line of the table.
pub fn reading(syndrome: u8) -> Reading
    ensures { result ≡ reading_of columns syndrome }
{
    reading_by(SYNDROMES[(syndrome / 16) as usize][(syndrome % 16) as usize])
}
