// Document 02, L7: the peaks of a PCM file as a summary, built and checked. Every refusal is found first. Building goes
// over the groups once where there is room for any summary of so many pairs, and otherwise twice: the first time to
// find how long this one is.
#![tactic(auto)]

mod checking;
mod extremes;
mod pass;
mod passing;

ghost use Rattle.std.specs.Prelude.{◌≡◌, not, ◌+◌, ◌*◌, length, ltb};
ghost use Rattle.format.specs.Refusals.{Fine};
ghost use Rattle.format.specs.Header.{groups_of};
ghost use Rattle.format.specs.Peaks.{summary_of, check_peaks};
ghost use Rattle.format.specs.Promises.{BuildsPeaks, ComparesPeaks};

use crate::pass::Pass;
use crate::passing::pass_file;
pub use checking::check_peaks;
use format::{Answer, Fields, Outcome, Refusal};

// Ten bytes for each pair, and as many for the two numbers before them: no summary of such a file is longer.
fn longest(h: Fields) -> u64
    ensures { result ≡ 10 * (groups_of h.frames * h.channels) + 10 }
{
    10 * (h.frames.groups() as u64 * h.channels as u64) + 10
}

// Whether so much room is enough: there is room for any summary of so many pairs, or for this one.
#[tactic(auto, using(crate::proofs::Ways::rooms))]
fn has_room(file: &[u8], room: usize) -> bool
    requires { check_peaks file.now ≡ Fine }
    ensures { result ≡ not (ltb room (length (summary_of file.now))) }
{
    longest(header::read_fields(file)) <= room as u64
        || pass_file(Pass::Measure, file, &mut [], &[]).unwrap() <= room
}

// Puts the summary of a file at the front of `out`: how long it is, or the refusal. All else that is lent stays as it
// was.
#[tactic(auto, using(crate::proofs::Ways::builds))]
pub fn build_peaks(file: &[u8], out: &mut [u8]) -> Answer
    ensures { BuildsPeaks file.now out.old result out.new }
{
    if let Err(refused) = check_peaks(file) {
        return Answer::refused(refused);
    }
    if !has_room(file, out.len()) {
        return Answer::refused(Refusal::OutputTooShort.nowhere());
    }
    let n = pass_file(Pass::Write, file, out, &[]).unwrap();
    Answer::of(Outcome::Wrote(n as u64))
}

// Whether the bytes are the summary of that file: yes, no at the first number that is another, or the refusal.
#[tactic(auto, using(crate::proofs::Ways::compares))]
pub fn compare_peaks(summary: &[u8], file: &[u8]) -> Answer
    ensures { ComparesPeaks summary.now file.now result }
{
    if let Err(refused) = check_peaks(file) {
        return Answer::refused(refused);
    }
    match pass_file(Pass::Compare, file, &mut [], summary) {
        Some(n) if n == summary.len() => Answer::of(Outcome::Matches),
        _ => Answer::of(Outcome::Differs),
    }
}
