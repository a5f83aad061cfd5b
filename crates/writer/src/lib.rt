// Encoding: encode_pcm of writer.rs. Every refusal and the length are found first; then the file is written.
#![tactic(auto)]

mod checking;
mod sizing;
mod writing;

ghost use Rattle.format.specs.Promises.{Encodes};

use crate::checking::check_input;
use crate::sizing::{data_size, data_start};
use crate::writing::write_file;
use format::{Answer, Outcome, PcmSpec, Refusal, StereoMode};
use lent_samples::Stored;

// Encodes samples that are lent in either container: the length of the file that is then at the front of `out`, or the
// refusal. Of bytes the whole samples are taken: 1 to 3 bytes at the end are no sample, and are not looked at. The host
// boundary refuses them (39: the bytes are no whole samples) before it calls this.
#[tactic(auto, using(crate::proofs::Ways::ways))]
pub fn encode_pcm<E: Stored>(samples: &[E], p: PcmSpec, mode: StereoMode, out: &mut [u8]) -> Answer
    ensures { let lent = E.samples samples.now in
        Encodes p mode lent out.old result out.new }
{
    if let Err(refused) = check_input(samples, p, mode) {
        return Answer::refused(refused);
    }
    let frames = validate::frames_of(samples, p.channels);
    let size = data_size(samples, p, mode, frames);
    if 0xFFFF_FFFF < size {
        return Answer::refused(Refusal::DataTooLarge.nowhere());
    }
    let end = data_start(frames) as u64 + size;
    if (out.len() as u64) < end {
        return Answer::refused(Refusal::OutputTooShort.nowhere());
    }
    write_file(samples, p, mode, frames, size as u32, out);
    Answer::of(Outcome::Wrote(end))
}
