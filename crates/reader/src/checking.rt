// Every refusal, found from the header, the table, the block headers and the room alone.
ghost use Rattle.std.specs.Prelude.{◌≡◌};
ghost use Rattle.format.specs.Refusals.{◌then◌};
ghost use Rattle.format.specs.Decoding.{check_decode, check_room};

use format::{Refusal, RefusedAt, Samples, refuse};

// Opening's checks, then those of every group.
pub fn check_file(file: &[u8]) -> Result<(), RefusedAt>
    ensures { result ≡ check_decode file.now }
{
    opening::check_open(file)?;
    let h = header::read_fields(file);
    let frames = h.frames;
    groups::check_groups(file, h, opening::format_of(file, h), 0, frames.groups())
}

// The same, then 50: there is less room than samples.
pub fn check_decode(file: &[u8], room: Samples) -> Result<(), RefusedAt>
    ensures { result ≡ (check_decode file.now then check_room file.now room.0) }
{
    check_file(file)?;
    let h = header::read_fields(file);
    let frames = h.frames;
    refuse(
        room.0 < frames.samples(h.channels).0,
        Refusal::OutputTooShort,
    )
}
