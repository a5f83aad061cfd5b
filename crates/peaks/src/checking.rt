// What building and checking refuse, but for the room.
ghost use Rattle.std.specs.Prelude.{◌≡◌};
ghost use Rattle.format.specs.Peaks.{check_peaks};

use format::{Refusal, RefusedAt, SampleFormat, refuse};

// Decoding's checks, then 66: the file is float.
#[tactic(auto, using(crate::proofs::Ways::checks), unfolding(format::specs::Peaks::check_peaks))]
pub fn check_peaks(file: &[u8]) -> Result<(), RefusedAt>
    ensures { result ≡ check_peaks file.now }
{
    reader::check_file(file)?;
    let format = opening::format_of(file, header::read_fields(file));
    refuse(matches!(format, SampleFormat::Float), Refusal::FloatFile)
}
