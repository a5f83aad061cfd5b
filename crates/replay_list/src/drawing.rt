// Drawn numbers: x becomes 48271 x modulo 2147483647, and the value is `low` plus x modulo `range`, or plus twice
// that. All are taken modulo 2^32.
ghost use Rattle.std.specs.Prelude.{◌≡◌, ◌/◌, length};
ghost use Rattle.format.specs.Lists.{over};
ghost use Rattle.replay_list.specs.Drawn.{next_of, value_of, number_of, drawn, drawn_into};

use crate::{read_u8, read_u32};
use le_bytes::put_u32_le;
use std::io;
use std::io::Read;

// From which x to start, and how to make a number of each x.
#[derive(Clone, Copy)]
pub struct Drawn {
    pub seed: u32,
    pub low: u32,
    pub range: u32,
    pub is_doubled: bool,
    pub in_steps: bool,
}

// What the list says of a draw. Bit 1 of the style doubles, bit 0 adds up.
pub fn read_drawn<R: Read>(list: &mut R) -> io::Result<Drawn> {
    let seed = read_u32(list)?;
    let low = read_u32(list)?;
    let range = read_u32(list)?;
    let style = read_u8(list)?;
    Ok(Drawn {
        seed,
        low,
        range,
        is_doubled: style / 2 % 2 == 1,
        in_steps: style % 2 == 1,
    })
}

fn next(x: u32) -> u32
    ensures { result ≡ next_of x }
{
    (x as u64 * 48271 % 2147483647) as u32
}

#[tactic(auto, unfolding(crate::specs::Drawn::value_of))]
fn value(x: u32, d: Drawn) -> u32
    ensures { result ≡ value_of d x }
{
    if d.range == 0 {
        return d.low;
    }
    let rest = x % d.range;
    let value = d.low.wrapping_add(rest);
    if d.is_doubled {
        value.wrapping_add(rest)
    } else {
        value
    }
}

// In steps each number is the one before plus its value.
#[tactic(auto, unfolding(crate::specs::Drawn::number_of))]
fn number_after(before: u32, x: u32, d: Drawn) -> u32
    ensures { result ≡ number_of d before x }
{
    let value = value(x, d);
    if d.in_steps {
        before.wrapping_add(value)
    } else {
        value
    }
}

// As many numbers as the part holds, 4 bytes each.
#[tactic(auto, using(crate::proofs::Draws::one_by_one))]
fn fill(part: &mut [u8], d: Drawn)
    ensures { part.new ≡ over (drawn d (length part.old / 4)) part.old }
{
    let mut x = d.seed;
    let mut number: u32 = 0;
    for i in 0..part.len() / 4 {
        x = next(x);
        number = number_after(number, x, d);
        put_u32_le(part, 4 * i, number);
    }
}

// Puts n drawn numbers, 4 bytes each, into the space that is lent, from `at` on, where they lie within it.
#[tactic(auto, using(crate::proofs::Draws::in_a_space))]
pub fn draw(space: &mut [u8], at: usize, n: usize, d: Drawn)
    ensures { space.new ≡ drawn_into d at n space.old }
{
    if at <= space.len() && n <= (space.len() - at) / 4 {
        fill(&mut space[at..at + 4 * n], d);
    }
}
