// A file's groups, one after another: their checks, and the frames in them put into what is lent.
#![tactic(auto)]

mod checking;
mod putting;

pub use checking::check_groups;
pub use putting::put_frames;
