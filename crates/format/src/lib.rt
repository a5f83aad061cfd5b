// The types that promises speak of. Document 01 itself is in specs/, a file for each of its sections.
#![tactic(auto)]

mod answers;
mod packed;
mod places;
mod refusals;
mod settings;
mod signatures;
mod units;

pub use answers::{Answer, Fields, Header, Outcome, Peak};
pub use packed::Coding;
pub use places::Named;
pub use refusals::{NOWHERE, Place, Refusal, RefusedAt, Told, in_channel, in_group, refuse};
pub use settings::{PcmSpec, SampleFormat, StereoMode};
pub use signatures::{BLOCK_SIGNATURE, FILE_SIGNATURE, FILE_SIGNATURE_30, FILE_SIGNATURE_31};
pub use units::{Depth, Frames, Samples, Unframed};
