// The memory calls over a record and cells that are lent: scrubs and flips, and the names of reads, writes and bursts, which are crates of their own.
#![tactic(auto)]

mod flips;
mod scrubs;

pub use burst_reads::burst_read_in_place;
pub use burst_writes::burst_write_in_place;
pub use flips::flip_in_place;
pub use reads::read_in_place;
pub use scrubs::scrub_in_place;
pub use writes::write_in_place;
