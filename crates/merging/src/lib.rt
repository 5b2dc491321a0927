// The bytes of a write as one number, the first lowest, and that number merged into the doubleword that a cell holds.
#![tactic(auto)]

ghost use Rattle.std.specs.Prelude.{◌≡◌, cond, ◌++◌, ◌-◌, ◌*◌, ◌%◌, ◌^◌, leb, length, take, replicate};
ghost use Rattle.ecc.specs.Doubleword.{bytes_of_number};
ghost use Rattle.calls.specs.Calls.{room};
ghost use Rattle.machine.specs.Cells.{merge};

// MEM-4, MEM-5: the bytes of a write as one number, the first lowest; 0 for more than eight, which no write has (REF-6). Eight need no loop.
pub fn gathered(bytes: &[u8]) -> u64
    ensures { bytes_of_number result ≡ cond (leb (length bytes.now) 8) (bytes.now ++ replicate (8 - length bytes.now) 0) (replicate 8 0) }
{
    if bytes.len() == 8 {
        return eight_bytes::number_at(bytes, 0);
    }
    if 8 < bytes.len() {
        return 0;
    }
    let mut x: u64 = 0;
    for (i, &byte) in bytes.iter().enumerate() {
        x |= u64::from(byte) << (8 * i);
    }
    x
}

// Ones in the lanes of the first n bytes, modulo 8.
fn lanes(n: usize) -> u64
    ensures { result ≡ 2 ^ (8 * (n % 8)) - 1 }
{
    (1u64 << (8 * (n % 8))) - 1
}

// MEM-5: the doubleword with the first bytes of a value, `count` modulo 8 of them, in place of its own from the address on. Those that run past its
// end are dropped: they belong to the next doubleword (MEM-17). The bits of these lanes in which the two differ are inverted, so that the count makes
// no branch.
pub fn with_bytes(doubleword: u64, address: u32, count: usize, value: u64) -> u64
    ensures { bytes_of_number result ≡ merge (address % 8) (take (room address) (take (count % 8) (bytes_of_number value))) (bytes_of_number doubleword) }
{
    let shift = 8 * (address % 8);
    doubleword ^ ((doubleword ^ value << shift) & lanes(count) << shift)
}
