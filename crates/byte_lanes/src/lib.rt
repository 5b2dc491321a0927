// Bytes of doublewords, numbers with byte 0 lowest, copied to a slice that a caller lends. The slice may have any length; where it does not suit, nothing
// is copied. Each byte of a doubleword has a lane of the data bus: hence the name.
#![tactic(auto)]

mod out;
mod whole;

pub use out::{copy_across, copy_out};
pub use whole::{copy_line, store_nine};
