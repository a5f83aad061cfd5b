// Decoding: reader.rs of the Rust. Every refusal is found first; then samples are put.
#![tactic(auto)]

mod checking;

ghost use Rattle.std.specs.Prelude.{◌≡◌};
ghost use Rattle.format.specs.Promises.{Decodes};

pub use checking::{check_decode, check_file};
use format::{Answer, Frames, Outcome};
use lent_samples::Stored;

// Decodes a file into samples that are lent in either container: how many were put at their front, or the refusal. Then
// and behind what was put, all that is lent stays as it was.
pub fn decode_samples<E: Stored>(file: &[u8], lent: &mut [E]) -> Answer
    ensures decodes { Decodes file.now (E.samples lent.old) result (E.samples lent.new) }
    ensures keeps { E.rest lent.new ≡ E.rest lent.old }
{
    if let Err(refused) = check_decode(file, E::count(lent)) {
        return Answer::refused(refused);
    }
    let h = header::read_fields(file);
    let frames = h.frames;
    groups::put_frames(
        lent,
        file,
        h,
        opening::format_of(file, h),
        Frames(0),
        frames,
    );
    Answer::of(Outcome::Read(frames.samples(h.channels)))
}
