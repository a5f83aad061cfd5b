// The list of recorded answers, read item by item: its numbers, what it puts into a space, and what was recorded of
// an answer. Behind the list's end every byte reads as 0.
#![tactic(auto)]

mod answers;
mod bytes;
mod drawing;
mod kinds;
mod room;

pub use answers::{
    ACCEPTED, DONE, Recorded, Said, Verdict, is_recorded, is_said, judged, of_answer, of_result,
    read_recorded, read_refusal, word_of,
};
pub use bytes::{fill_bytes, is_answered};
pub use drawing::{Drawn, draw, read_drawn};
use intake::read_full;
pub use kinds::Kind;
use le_bytes::{read_u16_le, read_u32_le};
pub use room::{fill, room_length, spoil};
use std::io;
use std::io::Read;

// The bytes of each of the two spaces, and of the room that is lent to a question; how many samples these are.
pub const SPACE: usize = 16384;

pub const MOST_SAMPLES: usize = SPACE / 4;

// The list's next byte.
pub fn read_u8<R: Read>(list: &mut R) -> io::Result<u32> {
    let mut bytes = [0u8; 1];
    read_full(list, &mut bytes)?;
    Ok(u32::from(bytes[0]))
}

// The number that the list's next 2 bytes are, the lowest first.
pub fn read_u16<R: Read>(list: &mut R) -> io::Result<u16> {
    let mut bytes = [0u8; 2];
    read_full(list, &mut bytes)?;
    Ok(read_u16_le(&bytes, 0))
}

// The number that the list's next 4 bytes are, the lowest first.
pub fn read_u32<R: Read>(list: &mut R) -> io::Result<u32> {
    let mut bytes = [0u8; 4];
    read_full(list, &mut bytes)?;
    Ok(read_u32_le(&bytes, 0))
}

// Puts the list's next n bytes into the space that is lent, from `at` on, where they lie within it.
pub fn put<R: Read>(list: &mut R, space: &mut [u8], at: usize, n: usize) -> io::Result<()> {
    if at <= space.len() && n <= space.len() - at {
        read_full(list, &mut space[at..at + n])?;
    }
    Ok(())
}
