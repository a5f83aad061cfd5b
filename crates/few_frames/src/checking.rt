// Every refusal, found from the header, the table, the first block's header, those of the touched groups' blocks, the
// file's length and the room.
ghost use Rattle.std.specs.Prelude.{◌≡◌, ◌+◌, ◌^◌, ◌<◌};
ghost use Rattle.format.specs.FewFrames.{touched, check_frames_into};

use format::{Depth, Frames, Refusal, RefusedAt, Samples, refuse};

// How many groups the frames touch.
#[tactic(auto, using(crate::proofs::Ways::touches))]
fn touched(first: Frames, count: Frames) -> u32
    requires { first.0 + count.0 < 2 ^ 32 }
    ensures { result ≡ touched first count }
{
    if count.0 == 0 {
        return 0;
    }
    let last = first.0 + count.0 - 1;
    last / Depth::SAMPLES_PER_BLOCK as u32 - first.0 / Depth::SAMPLES_PER_BLOCK as u32 + 1
}

// Opening's checks, then 51: the frames asked for end past the file's; then those of every group that they touch, then
// 50: there is less room than samples.
#[tactic(auto, using(crate::proofs::Ways::checks))]
pub fn check_frames(
    file: &[u8],
    first: Frames,
    count: Frames,
    room: Samples,
) -> Result<(), RefusedAt>
    ensures { result ≡ check_frames_into file.now first count room.0 }
{
    opening::check_open(file)?;
    let h = header::read_fields(file);
    refuse(
        (h.frames.0 as u64) < first.0 as u64 + count.0 as u64,
        Refusal::RangePastEnd,
    )?;
    let g = first.0 / Depth::SAMPLES_PER_BLOCK as u32;
    let format = opening::format_of(file, h);
    groups::check_groups(file, h, format, g, touched(first, count))?;
    refuse(
        room.0 < count.samples(h.channels).0,
        Refusal::OutputTooShort,
    )
}
