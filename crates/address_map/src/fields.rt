// The numbers that describe the banks. They are taken out of the register bytes once, by shifts and masks, and lent to every function; without them a
// bank would be decoded again each time it is needed.
ghost use Rattle.std.specs.Prelude.{◌≡◌, ◌+◌, ◌*◌, ◌%◌, ◌^◌, ◌<◌, slice_index};
ghost use Rattle.banks.specs.Setup.{bank};
ghost use Rattle.address_map.specs.CodeFields.{fields_of, code_by, setup_by};

use registers::Registers;
use std::array;

// The offsets of the registers that describe banks, as indexes.
const START: usize = Registers::START as usize;

const END: usize = Registers::END as usize;

const BANK_ENABLE: usize = Registers::BANK_ENABLE as usize;

const ROW_CODES: usize = Registers::ROW_CODES as usize;

const MORE_ROW_CODES: usize = ROW_CODES + 1;

const MEMORY: usize = Registers::MEMORY as usize;

// FORM-3: the ten-bit megabyte number of bank n among those that begin at offset `base`: its low byte is there, its extended byte eight offsets
// further on, and of that one two bits count.
fn megabyte(bytes: &[u8; 256], base: usize, n: usize) -> u16
    requires { base + n < 0xF8 }
    ensures { result ≡ slice_index bytes.now (base + n) + 256 * (slice_index bytes.now (base + n + 8) % 4) }
{
    u16::from(bytes[base + n]) + (u16::from(bytes[base + n + 8] & 3) << 8)
}

// Of each bank its start and its last megabyte, as they are when it is enabled; and of all banks the enable bits, the row codes, and the byte that
// switches memory on. All have sixteen bits: the methods promise their answers for any such numbers, not for a record's alone.
#[derive(Clone, Copy)]
pub struct Fields {
    pub starts: [u16; 8],
    pub lasts: [u16; 8],
    pub enables: u16,
    pub codes: u16,
    pub memory: u16,
}

impl From<Registers> for Fields {
    ghost from_gives = { λ r f. f ≡ fields_of r };

    fn from(r: Registers) -> Fields {
        let bytes = r.bytes;
        Fields {
            starts: array::from_fn(|n| megabyte(&bytes, START, n)),
            lasts: array::from_fn(|n| megabyte(&bytes, END, n)),
            enables: u16::from(bytes[BANK_ENABLE]),
            codes: u16::from_le_bytes([bytes[ROW_CODES], bytes[MORE_ROW_CODES]]),
            memory: u16::from(bytes[MEMORY]),
        }
    }
}

impl Fields {
    // REG-16: whether memory is on.
    pub fn is_on(&self) -> bool
        ensures { result ≡ (setup_by self.now).on }
    {
        self.memory >> 3 & 1 == 1
    }

    // REG-7: whether bank n is enabled; none above 7 is.
    pub fn is_enabled(&self, n: u32) -> bool
        ensures { result ≡ (bank (setup_by self.now) n).enabled }
    {
        (n < 8) & (self.enables >> (n % 8) & 1 == 1)
    }

    // REG-4: the start of bank n, as it is when enabled. Here and below three bits of the bank's number count: a caller's number is then below 8
    // without a proof, and the compiler takes the three bits once for all of these.
    pub fn start(&self, n: u32) -> u32
        ensures value { result ≡ slice_index self.now.starts (n % 8) }
        ensures bound { result < 2 ^ 16 }
    {
        u32::from(self.starts[(n % 8) as usize])
    }

    // REG-5: its last megabyte.
    pub fn last(&self, n: u32) -> u32
        ensures value { result ≡ slice_index self.now.lasts (n % 8) }
        ensures bound { result < 2 ^ 16 }
    {
        u32::from(self.lasts[(n % 8) as usize])
    }

    // REG-12, FORM-3: its row code, by a shift and a mask.
    pub fn row_code(&self, n: u32) -> u32
        ensures value { result ≡ code_by self.now (n % 8) }
        ensures bound { result < 4 }
    {
        u32::from(self.codes >> (2 * (n % 8)) & 3)
    }
}
