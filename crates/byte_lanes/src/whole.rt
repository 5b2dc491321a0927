// Slices that are filled as a whole.
ghost use Rattle.std.specs.Prelude.{◌≡◌, cond, [], ◌++◌, eqb, length};
ghost use Rattle.ecc.specs.Doubleword.{bytes_of_number};

use eight_bytes::bytes_of;

// MEM-15: fills the buffer of a burst, which has 32 bytes, with four doublewords.
pub fn copy_line(first: u64, second: u64, third: u64, fourth: u64, buffer: &mut [u8])
    ensures { buffer.new ≡ cond (eqb (length buffer.old) 32) (bytes_of_number first ++ (bytes_of_number second ++ (bytes_of_number third ++ (bytes_of_number fourth ++ [])))) buffer.old }
{
    if buffer.len() != 32 {
        return;
    }
    buffer[..8].copy_from_slice(&bytes_of(first));
    buffer[8..16].copy_from_slice(&bytes_of(second));
    buffer[16..24].copy_from_slice(&bytes_of(third));
    buffer[24..32].copy_from_slice(&bytes_of(fourth));
}

// FORM-6: stores the nine bytes of a cell into the part of the lent cells that holds it.
pub fn store_nine(lent: &mut [u8], nine: [u8; 9])
    ensures { lent.new ≡ cond (eqb (length lent.old) 9) nine lent.old }
{
    if lent.len() != 9 {
        return;
    }
    lent.copy_from_slice(&nine);
}
