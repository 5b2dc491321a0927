// Bytes of doublewords, copied to the buffer of a read.
ghost use Rattle.std.specs.Prelude.{◌≡◌, cond, ◌+◌, ◌%◌, ◌≤◌, ◌<◌, leb, length, take, drop};
ghost use Rattle.eight_bytes.specs.CodeNumber.{eight_across};
ghost use Rattle.ecc.specs.Doubleword.{bytes_of_number};
ghost use Rattle.calls.specs.Calls.{crosses};

// Fills the buffer with the lowest bytes of a number; eight need no loop. Fewer are stored one by one: `copy_from_slice` of a length that is not known
// calls memcpy, and is slower (D-125).
fn copy_lowest(x: u64, buffer: &mut [u8])
    requires { length buffer.old ≤ 8 }
    ensures { buffer.new ≡ take (length buffer.old) (bytes_of_number x) }
{
    if buffer.len() == 8 {
        buffer.copy_from_slice(&eight_bytes::bytes_of(x));
        return;
    }
    let mut rest = x;
    for byte in buffer.iter_mut() {
        *byte = (rest % 256) as u8;
        rest >>= 8;
    }
}

// MEM-3: fills the buffer of a read with the bytes of a doubleword from the address on, unless the read runs into the next doubleword (MEM-17). The
// test is the one by which a caller tells such reads apart, so that the compiler makes it once.
pub fn copy_out(doubleword: u64, address: u32, buffer: &mut [u8])
    ensures { buffer.new ≡ cond (crosses address (length buffer.old)) buffer.old (take (length buffer.old) (drop (address % 8) (bytes_of_number doubleword))) }
{
    if (8 - (address % 8) as usize) < buffer.len() {
        return;
    }
    copy_lowest(doubleword >> (8 * (address % 8)), buffer);
}

// MEM-18: fills the buffer of a split read, which has at most eight bytes (REF-6), with those from the address to the end of its doubleword, and then
// with those at the start of the next.
pub fn copy_across(first: u64, second: u64, address: u32, buffer: &mut [u8])
    ensures { buffer.new ≡ cond (leb (length buffer.old) 8) (take (length buffer.old) (eight_across first second address)) buffer.old }
{
    if 8 < buffer.len() {
        return;
    }
    let eight = eight_bytes::number_across(first, second, address);
    copy_lowest(eight, buffer);
}
