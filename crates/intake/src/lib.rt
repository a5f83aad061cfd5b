// What programs read: as much of an input as is asked for, or as it has.
#![tactic(auto)]

ghost use Rattle.std.specs.Prelude.{◌<◌, ◌≤◌, length, take, IfOk};
ghost use Rattle.std.specs.Io.KnownBytes.{Consumes, IsAtEnd};

use std::io;
use std::io::Read;

// Fills the bytes that are lent with the input's next ones, as far as it goes, and answers how many these are. A read
// may give fewer than it is lent, and so may the next: how many turns it takes is not known before.
#[tactic(auto, using(crate::proofs::Known::read_more))]
pub fn read_full<R: Read>(input: &mut R, lent: &mut [u8]) -> io::Result<usize>
    ensures counts { IfOk result (λ n. n ≤ length lent.new) }
    ensures takes { IfOk result (λ n. Consumes (R.remaining input.old) (R.remaining input.new) (take n lent.new)) }
    ensures ends { IfOk result (λ n. n < length lent.new → IsAtEnd (R.remaining input.new)) }
{
    let mut done: usize = 0;
    while done < lent.len() {
        let n = input.read(&mut lent[done..])?;
        if n == 0 {
            return Ok(done);
        }
        done += n;
    }
    Ok(done)
}
