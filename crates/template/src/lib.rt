// Re-encoding: encode_pcm_with_template of writer.rs. Every refusal is found first; then the file is written.
#![tactic(auto)]

mod checking;
mod writing;

ghost use Rattle.format.specs.Promises.{Reencodes};

use crate::writing::write_file;
pub use checking::check_reencode;
use format::{Answer, Outcome, PcmSpec};
use lent_samples::Stored;

// Re-encodes samples that are lent in either container, with a file as template: the length of the new file, which is
// the template's, or the refusal. Of bytes the whole samples are taken, as in `writer::encode_pcm`.
pub fn encode_pcm_with_template<E: Stored>(
    samples: &[E],
    p: PcmSpec,
    template: &[u8],
    out: &mut [u8],
) -> Answer
    ensures { let lent = E.samples samples.now in
        Reencodes p lent template.now out.old result out.new }
{
    if let Err(refused) = check_reencode(samples, p, template, out.len() as u64) {
        return Answer::refused(refused);
    }
    write_file(samples, p, template, out);
    Answer::of(Outcome::Wrote(template.len() as u64))
}
