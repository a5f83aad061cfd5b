// How much the groups take, before anything is written.
ghost use Rattle.std.specs.Prelude.{◌≡◌, ◌+◌, ◌*◌, ◌/◌, ◌<◌, ◌^◌, length};
ghost use Rattle.format.specs.Lists.{joined};
ghost use Rattle.format.specs.Header.{groups_of};
ghost use Rattle.format.specs.Encoding.{encoded_group_at};
ghost use Rattle.writer.specs.Accepted.{Accepted};

use format::{Depth, Frames, PcmSpec, StereoMode};
use lent_samples::Stored;

// The data offset: the table follows byte 120, the data follow the table.
pub fn data_start(frames: Frames) -> u32
    ensures { result ≡ 120 + 4 * (groups_of frames + 1) }
{
    120 + 4 * (frames.groups() + 1)
}

// How many bytes the groups take.
#[tactic(auto, using(crate::proofs::Groups::sizes), unfolding(format::specs::Lists::joined))]
pub fn data_size<E: Stored>(samples: &[E], p: PcmSpec, mode: StereoMode, frames: Frames) -> u64
    requires { let lent = E.samples samples.now in
        (Accepted p mode lent) × (frames.0 ≡ length lent / p.channels) }
    ensures { let lent = E.samples samples.now in
        (result ≡ length (joined (encoded_group_at p mode lent) (groups_of frames))) × (result < 2 ^ 53) }
{
    let mut size: u64 = 0;
    for g in 0..frames.groups() {
        let n = frames.active(g).0 as usize;
        let first = Depth::SAMPLES_PER_BLOCK * g as usize;
        size += encode_group::group_size(samples, first, n, p, mode) as u64;
    }
    size
}
