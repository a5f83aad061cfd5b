// The program that document 01 adds: what opening says of standard input.
#![tactic(auto)]

use std::io;

fn main(rt: HostRuntime) -> io::Result<()> {
    ncw_open_print::print_opening(&rt, &mut rt.reader())
}
