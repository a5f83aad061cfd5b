// Document 02, L7: a summary of peaks read, for a group and a channel or for all of them. Every refusal is found first;
// then pairs are put, each as two samples.
#![tactic(auto)]

mod checking;
mod numbers;
mod putting;

ghost use Rattle.std.specs.Prelude.{◌≡◌};
ghost use Rattle.format.specs.Promises.{ReadsPeak, ReadsPeaks};

use crate::numbers::{channels_of, pair_count};
use crate::putting::put_pairs;
pub use checking::{check_all_peaks, check_peak};
use format::{Answer, Outcome, Samples};
use lent_samples::Stored;

// Puts the smallest and the largest sample of a group and a channel, as the summary has them, at the front of what is
// lent, as numbers or as bytes, or says the refusal. All else that is lent stays as it was.
#[tactic(auto, using(crate::proofs::Ways::peak_ways))]
pub fn read_peak<E: Stored>(summary: &[u8], group: u32, channel: u32, lent: &mut [E]) -> Answer
    ensures reads { ReadsPeak summary.now group channel (E.samples lent.old) result (E.samples lent.new) }
    ensures keeps { E.rest lent.new ≡ E.rest lent.old }
{
    let room = E::count(lent);
    if let Err(refused) = check_peak(summary, group, channel, room) {
        return Answer::refused(refused);
    }
    let k = group as u64 * channels_of(summary) as u64 + channel as u64;
    put_pairs(lent, summary, k, 1);
    Answer::of(Outcome::Read(Samples(2)))
}

// Puts all pairs, groups in order and channels within, at the front of what is lent, as numbers or as bytes, or says
// the refusal. All else that is lent stays as it was.
#[tactic(auto, using(crate::proofs::Ways::all_ways))]
pub fn read_peaks<E: Stored>(summary: &[u8], lent: &mut [E]) -> Answer
    ensures reads { ReadsPeaks summary.now (E.samples lent.old) result (E.samples lent.new) }
    ensures keeps { E.rest lent.new ≡ E.rest lent.old }
{
    if let Err(refused) = check_all_peaks(summary, E::count(lent)) {
        return Answer::refused(refused);
    }
    let n = pair_count(summary);
    put_pairs(lent, summary, 0, n);
    Answer::of(Outcome::Read(Samples(2 * n)))
}
