// Document 02, L1: a few frames of a file, by the first one's number. Every refusal is found first; then samples are
// put.
#![tactic(auto)]

mod checking;

ghost use Rattle.std.specs.Prelude.{◌≡◌};
ghost use Rattle.format.specs.Promises.{ReadsFrames};

pub use checking::check_frames;
use format::{Answer, Frames, Outcome};
use lent_samples::Stored;

// Puts `count` frames of a file, from the frame `first` on, at the front of what is lent in either container: how many
// samples that is, or the refusal. All else that is lent stays as it was.
#[tactic(auto, using(crate::proofs::Ways::reads))]
pub fn read_frames<E: Stored>(file: &[u8], first: Frames, count: Frames, lent: &mut [E]) -> Answer
    ensures reads { ReadsFrames file.now first count (E.samples lent.old) result (E.samples lent.new) }
    ensures keeps { E.rest lent.new ≡ E.rest lent.old }
{
    if let Err(refused) = check_frames(file, first, count, E::count(lent)) {
        return Answer::refused(refused);
    }
    let h = header::read_fields(file);
    groups::put_frames(lent, file, h, opening::format_of(file, h), first, count);
    Answer::of(Outcome::Read(count.samples(h.channels)))
}
