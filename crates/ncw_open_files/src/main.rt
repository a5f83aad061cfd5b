// What opening says of each file that an argument names. The gate runs a program on one standard input, so that
// `ncw_open` itself runs there on one file.
#![tactic(auto)]

use std::fs::File;
use std::{env, io};

// A file that cannot be opened is named on standard error, and the next one is taken.
fn print_named(rt: &HostRuntime, path: &str) -> io::Result<()> {
    match File::open(rt, path) {
        Ok(mut file) => ncw_open_print::print_opening(rt, &mut file),
        Err(e) => eprintln!(rt; "{path}: {e}"),
    }
}

fn main(rt: HostRuntime) -> io::Result<()> {
    for path in env::args(&rt)?.skip(1) {
        print_named(&rt, &path)?;
    }
    Ok(())
}
