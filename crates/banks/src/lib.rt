// The types of the map, and the numbers that they share. Their definitions are in specs/, their laws in proofs/.
#![tactic(auto)]

// The row bits of code 0.
pub const FEWEST_ROW_BITS: u32 = 9;

// The fewest column bits that a bank can have.
pub const FEWEST_COLUMN_BITS: u32 = 8;

// How many bits number the doublewords of a megabyte.
pub const MEGABYTE_BITS: u32 = 17;

// How many doublewords a megabyte has.
pub const MEGABYTE_DOUBLEWORDS: u32 = 131072;

#[derive(Clone, Copy)]
pub struct Row(pub u32);

#[derive(Clone, Copy)]
pub struct Column(pub u32);

#[derive(Clone, Copy)]
pub struct Bank {
    pub enabled: bool,
    pub start: u32,
    pub last: u32,
    pub row_bits: u32,
    pub column_bits: u32,
}

// MAP-9: where a doubleword is kept. FORM-4: row and column are tuple structs.
#[derive(Clone, Copy)]
pub struct Place {
    pub bank: u8,
    pub row: Row,
    pub column: Column,
    pub cell: u32,
}
