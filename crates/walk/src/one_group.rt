// One group's samples, by number.
ghost use Rattle.std.specs.Prelude.{◌≡◌};
ghost use Rattle.format.specs.Promises.{Steps};

use crate::checking::check_walk;
use format::{Answer, Outcome};
use lent_samples::{Part, Stored};

// Puts one group's samples at the front of what is lent in either container: how many, that no group of that number is
// left, or the refusal. All else that is lent stays as it was.
#[tactic(auto, using(crate::proofs::Ways::steps))]
pub fn decode_group<E: Stored>(file: &[u8], g: u32, lent: &mut [E]) -> Answer
    ensures steps { Steps file.now g (E.samples lent.old) result (E.samples lent.new) }
    ensures keeps { E.rest lent.new ≡ E.rest lent.old }
{
    if let Err(refused) = check_walk(file, g, E::count(lent)) {
        return Answer::refused(refused);
    }
    let h = header::read_fields(file);
    if h.frames.groups() <= g {
        return Answer::of(Outcome::Finished);
    }
    let format = opening::format_of(file, h);
    let a = opening::offset_of(file, h, g);
    let e = opening::offset_of(file, h, g + 1);
    let active = h.frames.active(g);
    let n = active.0 as usize;
    let part = Part {
        first: 0,
        skip: 0,
        count: n,
    };
    group::put_group(lent, &file[a..e], h, format, part);
    Answer::of(Outcome::Read(active.samples(h.channels)))
}
