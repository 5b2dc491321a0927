// What is stored of a doubleword under the columns of ECC-2, and the doubleword with one of its bits inverted.
#![tactic(auto)]

ghost use Rattle.std.specs.Prelude.{◌≡◌, cond, ◌<◌, ltb};
ghost use Rattle.std.specs.Int.Bits.{bit_xor};
ghost use Rattle.ecc.specs.Columns.{columns};
ghost use Rattle.ecc.specs.CheckCode.{mask_of, flip_bit};
ghost use Rattle.ecc.specs.Doubleword.{bytes_of_number};
ghost use Rattle.ecc.specs.Cell.{encode};

// The mask of flip bit b within its byte. A flip bit is a number and no type with a bound, since a caller may give any (MEM-7).
fn mask(b: usize) -> u8
    requires { b < 72 }
    ensures { result ≡ mask_of b }
{
    if b < 64 {
        1 << (7 - b % 8)
    } else {
        1 << (b - 64)
    }
}

// ECC-3: byte b / 8 of a cell with flip bit b inverted; a number above 71 changes nothing.
pub fn flip_byte(byte: u8, b: usize) -> u8
    ensures { result ≡ cond (ltb b 72) (bit_xor byte (mask_of b)) byte }
{
    if 71 < b {
        return byte;
    }
    byte ^ mask(b)
}

// MAP-8: the nine bytes of a doubleword and its check byte.
#[tactic(auto, unfolding(ecc::specs::Cell::encode, ecc::specs::Doubleword::bytes_of_number))]
pub fn encode(doubleword: u64) -> [u8; 9]
    ensures { result ≡ encode columns (bytes_of_number doubleword) }
{
    let check = check_byte::check(doubleword);
    let mut cell = [check; 9];
    cell[..8].copy_from_slice(&eight_bytes::bytes_of(doubleword));
    cell
}

// ECC-7: the doubleword with flip bit b inverted; a number above 63, a check bit's among them, changes nothing in it.
pub fn with_bit_flipped(doubleword: u64, b: u8) -> u64
    ensures { bytes_of_number result ≡ flip_bit (bytes_of_number doubleword) b }
{
    if 63 < b {
        return doubleword;
    }
    doubleword ^ 1u64 << (8 * (b / 8) + (7 - b % 8))
}
