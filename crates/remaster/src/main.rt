// The main job on the file that the first argument names: open, decode, re-encode with the file as template, compare.
#![tactic(auto)]

mod job;
mod text;

ghost use Rattle.std.specs.Prelude.{◌≡◌, replicate};

use std::fs::File;
use std::{env, io};

// The largest file that is taken.
pub const MOST_BYTES: usize = 65536;

// One byte more than is taken: a larger file is known by it.
fn buffer() -> [u8; MOST_BYTES + 1]
    ensures { result ≡ replicate 65537 0 }
{
    [0; MOST_BYTES + 1]
}

fn run(rt: &HostRuntime, mut input: File) -> io::Result<()> {
    let mut file = buffer();
    let n = intake::read_full(&mut input, &mut file)?;
    job::run(rt, &file[..n])
}

fn main(rt: HostRuntime) -> io::Result<()> {
    let Some(path) = env::args(&rt)?.nth(1) else {
        return eprintln!(rt; "usage: remaster FILE");
    };
    match File::open(&rt, &path) {
        Ok(file) => run(&rt, file),
        Err(e) => eprintln!(rt; "{path}: {e}"),
    }
}
