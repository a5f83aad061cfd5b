// How often each question was answered by each number; then how many were as recorded and how many were not, and how
// many were false on purpose and found.
#![tactic(auto)]

ghost use Rattle.std.specs.Prelude.{◌≡◌, slice_index};
ghost use Rattle.replay_list.specs.Kinds.{number_of};
ghost use Rattle.replay_counts.specs.Counts.{place_of, others, counted, tallied_false, tallied};

use replay_list::{ACCEPTED, DONE, Kind, Verdict};
use std::io;

// Room for the counts: of 10 questions 256 numbers each, and behind these the four sums; the rest is not used.
pub const COUNTS: usize = 2816;

// Refusals have the numbers from this one to the one before `DONE`.
const FIRST_REFUSAL: u32 = ACCEPTED + 1;

// The places of the sums.
const AS_RECORDED: usize = 2560;

const OTHERS: usize = 2561;

const FALSE: usize = 2562;

const FOUND: usize = 2563;

// One more at that place, where there is one.
#[tactic(auto, unfolding(crate::specs::Counts::counted))]
fn count(counts: &mut [u64], at: usize)
    ensures { counts.new ≡ counted counts.old at }
{
    if at < counts.len() {
        counts[at] = counts[at].wrapping_add(1);
    }
}

// The count at that place; 0 where there is none.
fn count_of(counts: &[u64], at: usize) -> u64
    ensures { result ≡ slice_index counts.now at }
{
    counts.get(at).copied().unwrap_or(0)
}

// The place of an answer, by the numbers of both: 256 for each question.
fn place_of(kind: Kind, number: u32) -> usize
    ensures { result ≡ place_of (number_of kind) number }
{
    (kind.number() % 16 * 256 + number % 256) as usize
}

// An answer that is not as it is to be: it is counted, and its item is named.
fn count_other(rt: &impl Print, counts: &mut [u64], item: u64) -> io::Result<()>
    ensures { counts.new ≡ counted counts.old others }
{
    count(counts, OTHERS);
    println!(rt; "item {item}: not as recorded")
}

// An answer that is false on purpose is to differ from the record.
#[tactic(auto, unfolding(crate::specs::Counts::tallied_false))]
fn tally_false(rt: &impl Print, counts: &mut [u64], item: u64, is_same: bool) -> io::Result<()>
    ensures { counts.new ≡ tallied_false counts.old is_same }
{
    count(counts, FALSE);
    if is_same {
        return count_other(rt, counts, item);
    }
    count(counts, FOUND);
    Ok(())
}

// Counts the answer to the item of that number and kind, which may be false on purpose. It is counted also where its
// item cannot be printed.
#[tactic(auto, unfolding(crate::specs::Counts::tallied, crate::specs::Counts::tallied_true))]
pub fn tally(
    rt: &impl Print,
    counts: &mut [u64],
    item: u64,
    kind: Kind,
    is_false: bool,
    verdict: Verdict,
) -> io::Result<()>
    ensures { counts.new ≡ tallied counts.old (number_of kind) is_false verdict }
{
    if is_false {
        return tally_false(rt, counts, item, verdict.is_same);
    }
    if verdict.is_same {
        count(counts, AS_RECORDED);
        count(counts, place_of(kind, verdict.number));
        return Ok(());
    }
    count_other(rt, counts, item)
}

// The refusals of a question, by number.
fn print_refusals(rt: &impl Print, counts: &[u64], kind: Kind) -> io::Result<()> {
    let mut before = ", refused ";
    for number in FIRST_REFUSAL..DONE {
        let times = count_of(counts, place_of(kind, number));
        if 0 < times {
            print!(rt; "{before}{number}: {times}")?;
            before = ", ";
        }
    }
    Ok(())
}

fn print_question(rt: &impl Print, counts: &[u64], kind: Kind, name: &str) -> io::Result<()> {
    let accepted = count_of(counts, place_of(kind, ACCEPTED));
    print!(rt; "{name}: accepted {accepted}")?;
    let done = count_of(counts, place_of(kind, DONE));
    if 0 < done {
        print!(rt; ", done {done}")?;
    }
    print_refusals(rt, counts, kind)?;
    println!(rt)
}

// The questions, and what they are called.
const QUESTIONS: [(Kind, &str); 10] = [
    (Kind::Open, "opening"),
    (Kind::Decode, "decoding"),
    (Kind::Step, "stepping"),
    (Kind::Encode, "encoding"),
    (Kind::Reencode, "re-encoding"),
    (Kind::ReadFrames, "reading frames"),
    (Kind::Peaks, "building peaks"),
    (Kind::Peak, "reading a peak"),
    (Kind::PeaksAll, "reading peaks"),
    (Kind::PeaksCheck, "checking peaks"),
];

// A line for each question, and the four sums.
pub fn print_counts(rt: &impl Print, counts: &[u64; COUNTS]) -> io::Result<()> {
    for (kind, name) in QUESTIONS {
        print_question(rt, counts, kind, name)?;
    }
    let recorded = count_of(counts, AS_RECORDED);
    let others = count_of(counts, OTHERS);
    println!(rt; "{recorded} answers as recorded, {others} others")?;
    let wrong = count_of(counts, FALSE);
    let found = count_of(counts, FOUND);
    println!(rt; "{wrong} false ones on purpose, {found} found")
}
