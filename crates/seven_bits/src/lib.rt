// Document 02, L7: numbers in groups of seven bits, low group first, high bit set on all but the last byte. Signed ones
// are folded into numbers.
#![tactic(auto)]

mod folding;
mod reading;
mod writing;

pub use folding::{fold, unfold};
pub use reading::{check_number, length_at, number_at};
pub use writing::{Sevens, length_of, put, sevens_of, stands};
