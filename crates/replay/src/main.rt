// Replays the recorded answers of the Rust. The first argument names the list.
#![tactic(auto)]

mod items;
mod questions;

use crate::items::Spaces;
use replay_counts::COUNTS;
use replay_list::Kind;
use std::fs::File;
use std::io::Read;
use std::{env, io};

// The most items that are followed.
const MOST_TURNS: u64 = 10_000_000;

// Follows the items of a list and counts its answers. Turns are counted, since nothing says that a list ends.
fn replay<R: Read>(rt: &impl Print, list: &mut R, counts: &mut [u64; COUNTS]) -> io::Result<()> {
    let mut spaces = Spaces::new();
    let mut place = items::start();
    for _ in 0..MOST_TURNS {
        let kind = Kind::of(replay_list::read_u8(list)?);
        if kind == Kind::End {
            break;
        }
        place = spaces.follow(list, kind, place)?;
        place = questions::answer(rt, list, kind, place, &mut spaces, counts)?;
    }
    Ok(())
}

fn run(rt: &HostRuntime, mut list: File) -> io::Result<()> {
    let mut counts = [0; COUNTS];
    replay(rt, &mut list, &mut counts)?;
    replay_counts::print_counts(rt, &counts)
}

fn main(rt: HostRuntime) -> io::Result<()> {
    let path = env::args(&rt)?.nth(1).unwrap_or(String::new(rt.alloc()));
    match File::open(&rt, &path) {
        Ok(list) => run(&rt, list),
        Err(e) => eprintln!(rt; "{path}: {e}"),
    }
}
