// Executes the lines of the program `busline`, a text that arrives in chunks.
#![tactic(auto)]

mod buffers;
mod feed;

pub use buffers::Carry;
pub use feed::{Kept, LENT_BYTES};
