// The size of a bank, as a number of bits, from its row code and the length of its span.
ghost use Rattle.std.specs.Prelude.{◌≡◌, ◌+◌, ◌-◌, ◌*◌, ◌/◌, ◌%◌, ◌^◌, ◌<◌, ◌≤◌, if◌then◌else◌};
ghost use Rattle.banks.specs.Setup.{fewest_row_bits};
ghost use Rattle.address_map.specs.CodeFields.{longest_of, enabled_by};
ghost use Rattle.address_map.specs.CodeSelection.{SizeBits, bits_unless_faulty};

use crate::fields::Fields;
use banks::{FEWEST_ROW_BITS, MEGABYTE_BITS};

// ON-3: the longest bank of each row code, in megabytes.
const LONGEST: [u16; 4] = [2, 8, 32, 256];

// 2^k.
pub(crate) fn power(k: u32) -> u32
    requires { k < 32 }
    ensures { result ≡ 2 ^ k }
{
    1u32 << k
}

// One of two numbers, without a branch.
pub(crate) fn choose(t: bool, x: u32, y: u32) -> u32
    ensures { result ≡ (if t then x else y) }
{
    if t { x } else { y }
}

// ON-3: the longest bank of a row code.
fn longest(code: u32) -> u32
    requires { code < 4 }
    ensures { result ≡ longest_of code }
{
    u32::from(LONGEST[code as usize])
}

// How many binary digits a number has, its top bit left out.
fn digits(x: u32) -> u32
    ensures { (x % 2 ^ 31 < 2 ^ result) × (2 ^ result ≤ 2 * (x % 2 ^ 31) + 1) }
{
    31 - ((x << 1) + 1).leading_zeros()
}

// How many bits it takes to number the megabytes of a bank's cells, if its span has `span` + 1 megabytes: at least the row code.
fn size_bits(span: u32, code: u32) -> u32
    requires { code < 4 }
    ensures { SizeBits (span % 2 ^ 31) code result }
{
    let k = digits(span);
    choose(k < code, code, k)
}

impl Fields {
    // How many bits number the megabytes of a bank's cells, as it is when enabled, unless 12 or 13 applies to it then. If its start is above its
    // end, the difference wraps to a number too long for any bank.
    pub fn bits_unless_faulty(&self, n: u32) -> Option<u32>
        ensures { result ≡ bits_unless_faulty (enabled_by self.now (n % 8)) }
    {
        let code = self.row_code(n);
        let span = self.last(n).wrapping_sub(self.start(n));
        if span < longest(code) {
            Some(size_bits(span, code))
        } else {
            None
        }
    }
}

// REG-13, REG-14: the column bits of a bank with this row code, if `bits` bits number the megabytes of its cells; the other bits number its rows.
// It takes eight only with thirteen row bits. Of the row code two bits count, of `bits` four.
pub fn column_bits(code: u32, bits: u32) -> u32
    ensures { result ≡ 17 + bits % 16 - (fewest_row_bits + code % 4 + bits % 16 / 8) }
{
    let few = bits % 16;
    MEGABYTE_BITS + few - (FEWEST_ROW_BITS + code % 4 + (few >> 3))
}
