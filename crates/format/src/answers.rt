// What a caller is told.
ghost use Rattle.std.specs.Prelude.{◌≡◌};
ghost use Rattle.format.specs.Answers.{answered_by, refused_by};

use crate::refusals::{Refusal, RefusedAt};
use crate::settings::SampleFormat;
use crate::units::{Depth, Frames, Samples};

// The header's numbers, as they stand in bytes 8 to 31: NcwHeader of the Rust. `frames` counts samples of one channel;
// `table` and `start` are where the table and the data begin in the file, `size` is the data's in bytes.
#[derive(Clone, Copy)]
pub struct Fields {
    pub channels: u16,
    pub depth: u16,
    pub rate: u32,
    pub frames: Frames,
    pub table: u32,
    pub start: u32,
    pub size: u32,
}

// What opening finds: the header's numbers, the group count and the format.
#[derive(Clone, Copy)]
pub struct Header {
    pub channels: u16,
    pub depth: Depth,
    pub rate: u32,
    pub frames: Frames,
    pub table: u32,
    pub start: u32,
    pub size: u32,
    pub groups: u32,
    pub format: SampleFormat,
}

// The smallest and the largest of samples.
#[derive(Clone, Copy)]
pub struct Peak {
    pub smallest: i32,
    pub largest: i32,
}

// A file was opened, samples were read, no group was left, bytes were written, bytes were found to be what was expected
// or not; or nothing was done, for this reason.
#[derive(Clone, Copy)]
pub enum Outcome {
    Opened(Header),
    Read(Samples),
    Finished,
    Wrote(u64),
    Refused(Refusal),
    Matches,
    Differs,
}

// The record that reading, encoding and re-encoding share. Of a refusal that concerns a group or a block, the file's
// group and the channel; otherwise 0 and 0.
#[derive(Clone, Copy)]
pub struct Answer {
    pub outcome: Outcome,
    pub group: u32,
    pub channel: u16,
}

impl Answer {
    // What a call did.
    pub fn of(outcome: Outcome) -> Answer
        ensures { result ≡ answered_by outcome }
    {
        Answer {
            outcome,
            group: 0,
            channel: 0,
        }
    }

    // Nothing was done, for this reason, there.
    pub fn refused(refused: RefusedAt) -> Answer
        ensures { result ≡ refused_by refused.why refused.place }
    {
        let place = refused.place;
        Answer {
            outcome: Outcome::Refused(refused.why),
            group: place.group,
            channel: place.channel,
        }
    }
}
