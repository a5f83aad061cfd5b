// What was recorded of an answer, and what the entries and the host boundary answered.
ghost use Rattle.std.specs.Prelude.{◌≡◌};
ghost use Rattle.replay_list.specs.Said.{said_length, said_number, told_by, said_samples, said_outcome, said_by};
ghost use Rattle.replay_list.specs.Said.{refusal_of, said_by_host, recorded_refusal, misfit_of, word_of};
ghost use Rattle.replay_list.specs.Said.{is_said, words_in, is_recorded, verdict_of};

use crate::room::{checksum, is_kept, room_length};
use crate::{read_u8, read_u16, read_u32};
use format::{Answer, Outcome, Told};
use lent_samples::Stored;
use std::io;
use std::io::Read;

// Answers stand in the list by their numbers, and stay numbers here: a refusal's is that of the documents. This is the
// number of a call that was accepted.
pub const ACCEPTED: u32 = 0;

// The number of a step of a walk that was done.
pub const DONE: u32 = 255;

// The numbers of the two refusals that tell more than their number: a block's bits word, the place of a value that does
// not fit.
const BITS_WORD: u32 = 4;

const WIDTH_TOO_SMALL: u32 = 36;

// What was recorded of a call. Where it was refused, what it told besides the number, and the group and the channel
// that it named; where it was accepted, how many bytes of its room it wrote, and their sum.
#[derive(Clone, Copy)]
pub struct Recorded {
    pub number: u32,
    pub told: u16,
    pub group: u16,
    pub channel: u16,
    pub length: u64,
    pub sum: u64,
}

// Whether a question was answered as recorded; of what was recorded, the number and how many bytes were written.
#[derive(Clone, Copy)]
pub struct Verdict {
    pub is_same: bool,
    pub number: u32,
    pub length: u64,
}

// The verdict on a question of which that was recorded.
pub fn judged(is_same: bool, want: Recorded) -> Verdict
    ensures { result ≡ verdict_of is_same want }
{
    Verdict {
        is_same,
        number: want.number,
        length: want.length,
    }
}

fn refused(number: u32, told: u16, group: u16, channel: u16) -> Recorded
    ensures { result ≡ recorded_refusal number told group channel }
{
    Recorded {
        number,
        told,
        group,
        channel,
        length: 0,
        sum: 0,
    }
}

// What the list says behind the number of a call that was not accepted. A step that was done names no place.
pub fn read_refusal<R: Read>(list: &mut R, number: u32) -> io::Result<Recorded> {
    if number == DONE {
        return Ok(refused(number, 0, 0, 0));
    }
    let told = if number == BITS_WORD || number == WIDTH_TOO_SMALL {
        read_u16(list)?
    } else {
        0
    };
    let group = read_u16(list)?;
    let channel = read_u16(list)?;
    Ok(refused(number, told, group, channel))
}

// What the list says of a call: it counts samples there, 4 bytes each, or the bytes of a file or a summary.
pub fn read_recorded<R: Read>(list: &mut R, counts_samples: bool) -> io::Result<Recorded> {
    let number = read_u8(list)?;
    if number != ACCEPTED {
        return read_refusal(list, number);
    }
    let count = read_u32(list)? as u64;
    let sum = read_u32(list)? as u64;
    let length = if counts_samples { 4 * count } else { count };
    Ok(Recorded {
        number,
        told: 0,
        group: 0,
        channel: 0,
        length,
        sum,
    })
}

// The place in its block that was recorded of 36; 0 of all others.
fn misfit_of(want: Recorded) -> u16
    ensures { result ≡ misfit_of want }
{
    if want.number == WIDTH_TOO_SMALL {
        want.told
    } else {
        0
    }
}

// The word by which the host boundary is to tell what was recorded: 0 where the call was accepted.
#[tactic(auto, unfolding(crate::specs::Said::word_of))]
pub fn word_of(want: Recorded) -> u64
    ensures { result ≡ word_of want }
{
    let value = want.number as u64 + 0x100 * misfit_of(want) as u64;
    value + 0x100_0000 * want.channel as u64 + 0x100_0000_0000 * want.group as u64
}

// What a call said: its number, what it told besides, the group and the channel that it named, and how many bytes it
// wrote.
#[derive(Clone, Copy)]
pub struct Said {
    pub number: u32,
    pub told: u16,
    pub group: u32,
    pub channel: u16,
    pub length: u64,
}

// What a refusal tells besides its number.
fn told_by(told: Told) -> u16
    ensures { result ≡ told_by told }
{
    match told {
        Told::Bits(bits) => bits.cast_unsigned(),
        Told::Misfit(place) => place,
        Told::Nothing => 0,
    }
}

// A number that is no length, and what it tells besides.
fn of_number(number: u32, told: u16) -> Said
    ensures { result ≡ said_number number told }
{
    Said {
        number,
        told,
        group: 0,
        channel: 0,
        length: 0,
    }
}

fn accepted(length: u64) -> Said
    ensures { result ≡ said_length length }
{
    Said {
        number: ACCEPTED,
        told: 0,
        group: 0,
        channel: 0,
        length,
    }
}

// Samples are 4 bytes each; from 2^32 on, a length that no list has.
fn of_samples(n: u64) -> Said
    ensures { result ≡ said_samples n }
{
    if n < 0x1_0000_0000 {
        accepted(4 * n)
    } else {
        accepted(u64::MAX)
    }
}

// What an outcome says. Opening writes nothing: it says a length that no list has.
fn of_outcome(outcome: Outcome) -> Said
    ensures { result ≡ said_outcome outcome }
{
    match outcome {
        Outcome::Read(samples) => of_samples(samples.0),
        Outcome::Wrote(length) => accepted(length),
        Outcome::Refused(r) => of_number(r.number(), told_by(r.told())),
        Outcome::Finished => of_number(DONE, 0),
        Outcome::Opened(_) => accepted(u64::MAX),
        Outcome::Matches => accepted(1),
        Outcome::Differs => accepted(0),
    }
}

// What an entry's answer says, with the group and the channel that it names.
pub fn of_answer(answer: Answer) -> Said
    ensures { result ≡ said_by answer }
{
    Said {
        group: answer.group,
        channel: answer.channel,
        ..of_outcome(answer.outcome)
    }
}

// From 2^32 on, a number that no refusal has.
fn refusal_number(n: u64) -> u32
    ensures { result ≡ refusal_of n }
{
    u32::try_from(n).unwrap_or(u32::MAX)
}

// What the host boundary's number says. It tells nothing besides, and names no place: what was recorded is taken for
// these, so that they are not compared.
#[tactic(auto, unfolding(crate::specs::Said::said_by_host))]
pub fn of_result(res: u64, want: Recorded) -> Said
    ensures { result ≡ said_by_host res want }
{
    if res < 0x8000_0000_0000_0000 {
        return accepted(res);
    }
    Said {
        group: u32::from(want.group),
        channel: want.channel,
        ..of_number(refusal_number(res - 0x8000_0000_0000_0000), want.told)
    }
}

// Whether what was said was recorded.
#[tactic(auto, unfolding(crate::specs::Said::is_said))]
pub fn is_said(said: Said, want: Recorded) -> bool
    ensures { result ≡ is_said said want }
{
    said.number == want.number
        && said.told == want.told
        && said.group == u32::from(want.group)
        && said.channel == want.channel
        && said.length == want.length
}

// How many words of 4 bytes hold so many bytes.
#[tactic(auto, unfolding(crate::specs::Said::words_in))]
fn words_in(length: u64) -> usize
    ensures { result ≡ words_in length }
{
    length.div_ceil(4) as usize
}

// Whether that was recorded: what was said, what the room holds of it by its sum, and behind it what the room was
// filled with. In a last word that is not wholly written, what it was filled with is summed with it.
#[tactic(auto, unfolding(crate::specs::Said::is_recorded))]
pub fn is_recorded<E: Stored>(said: Said, want: Recorded, room: &[E]) -> bool
    ensures { result ≡ is_recorded said want (E.samples room.now) }
{
    let n = words_in(want.length);
    is_said(said, want)
        && n <= room_length(room)
        && checksum(room, n) == want.sum
        && is_kept(room, n)
}
