// What programs print: words, numbers, refusals, what opening says.
#![tactic(auto)]

mod opened;
mod text;

pub use opened::print_opened;
pub use text::{print, print_number, print_refusal, print_refused};
