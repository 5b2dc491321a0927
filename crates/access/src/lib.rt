// What every memory call does first: what the arguments of a read or a write say, what refuses a call, and one access that looks at its cell. An access
// is never refused; a number that is no lent cell counts as no bank there, so that every function takes all arguments. Record and
// cells are two parameters and no struct: a read lends its cells shared and a flip its record, and their types say that they leave them as they were.
#![tactic(auto)]

mod admission;
mod arguments;
mod cells;
mod perform;

pub use admission::{admit, is_allowed};
pub use arguments::{crosses_end, judge_count, room_at};
pub use cells::is_lent;
pub use perform::{Fetched, fetch};
