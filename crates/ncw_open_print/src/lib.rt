// What opening says of a file of up to 65,536 bytes, printed: the job of `ncw_open`.
#![tactic(auto)]

ghost use Rattle.std.specs.Prelude.{◌≡◌, replicate};

use format::Outcome;
use std::io;
use std::io::Read;

// The largest file that is opened.
const MOST_BYTES: usize = 65536;

// One byte more than is opened: a larger file is known by it.
fn buffer() -> [u8; MOST_BYTES + 1]
    ensures { result ≡ replicate 65537 0 }
{
    [0; MOST_BYTES + 1]
}

fn print_file(rt: &impl Print, file: &[u8]) -> io::Result<()> {
    if MOST_BYTES < file.len() {
        return println!(rt; "too large");
    }
    let answer = opening::open(file);
    if let Outcome::Refused(r) = answer.outcome {
        report::print_refusal(rt, r)?;
        return println!(rt);
    }
    report::print_opened(rt, answer, b"\n")
}

// Reads `input` to its end, or as far as is taken, and prints what opening says of it.
pub fn print_opening<R: Read>(rt: &impl Print, input: &mut R) -> io::Result<()> {
    let mut file = buffer();
    let n = intake::read_full(input, &mut file)?;
    print_file(rt, &file[..n])
}
