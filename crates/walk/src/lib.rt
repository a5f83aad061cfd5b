// The walk over a file, group by group: NcwReader of the Rust. The struct holds the lent bytes and the next group's
// number; `advance` does the work, on bytes and number.
#![tactic(auto)]

mod checking;
mod one_group;

ghost use Rattle.std.specs.Prelude.{◌≡◌};
ghost use Rattle.format.specs.Walking.{groups_passed};
ghost use Rattle.format.specs.Promises.{Advances};

use format::{Answer, Outcome};
pub use one_group::decode_group;

// What a step says, and the next group's number after it.
#[derive(Clone, Copy)]
pub struct Advanced {
    pub answer: Answer,
    pub next: u32,
}

// A refused step doesn't advance.
fn groups_passed(outcome: Outcome) -> u32
    ensures { result ≡ groups_passed outcome }
{
    match outcome {
        Outcome::Read(_) => 1,
        _ => 0,
    }
}

// One group's samples, and where the walk then stands.
#[tactic(auto, using(crate::proofs::Ways::goes))]
fn advance(file: &[u8], next: u32, out: &mut [i32]) -> Advanced
    ensures { let lent = out.old in
        Advances file.now next lent result.answer out.new result.next }
{
    let answer = decode_group(file, next, out);
    let outcome = answer.outcome;
    Advanced {
        answer,
        next: next + groups_passed(outcome),
    }
}

// A file, and the number of the group that the next step reads.
#[derive(Clone, Copy)]
pub struct Walk<'a> {
    pub file: &'a [u8],
    pub next: u32,
}

impl<'a> Walk<'a> {
    // A walk that stands at the first group.
    pub fn new(file: &'a [u8]) -> Walk<'a>
        ensures { (result.file ≡ file.entry) × (result.next ≡ 0) }
    {
        Walk { file, next: 0 }
    }

    // Puts the next group's samples at the front of `out`, and goes on to the group after it. Where the answer is a
    // refusal, or no group is left, the walk stays where it is.
    pub fn step(&mut self, out: &mut [i32]) -> Answer
        ensures { let before = self.old in
            let after = self.new in
            Advances before.file.now before.next out.old result out.new after.next
            × (after.file ≡ before.file) }
    {
        let a = advance(self.file, self.next, out);
        self.next = a.next;
        a.answer
    }
}

// The same step for callers without a walk of their own: the answer, and the number of the group after it.
pub fn step_at(file: &[u8], next: u32, out: &mut [i32]) -> Advanced
    ensures { let lent = out.old in
        Advances file.now next lent result.answer out.new result.next }
{
    let mut walk = Walk { file, next };
    let answer = walk.step(out);
    Advanced {
        answer,
        next: walk.next,
    }
}
