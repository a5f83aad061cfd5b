// Encoding and re-encoding, each asked of the proved entry and of the host boundary: whether both answer as recorded.
#![tactic(auto)]

ghost use Rattle.std.specs.Prelude.{◌≡◌, ◌≤◌, length, take, OnErr};
ghost use Rattle.format.specs.Lists.{over};
ghost use Rattle.replay_list.specs.Said.{verdict_of};
ghost use Rattle.replay_writing.specs.Written.{taken, is_asked, entry_says, entry_puts, host_says, host_puts};
ghost use Rattle.replay_writing.specs.Written.{host_tells};
ghost use Rattle.replay_writing.specs.Written.{entry_writes, left_by_entry, host_writes, left_by_host};
ghost use Rattle.replay_writing.specs.Written.{both_write, left_by_both};

use format::PcmSpec;
use lent_samples::Stored;
use replay_list::{
    MOST_SAMPLES, Recorded, Said, Verdict, fill_bytes, is_answered, judged, of_answer, of_result,
    read_recorded, room_length, word_of,
};
use std::io;
use std::io::Read;

// How samples are written: encoded in a mode, or re-encoded with the old file as template.
#[derive(Clone, Copy)]
enum Way {
    Encode(u32),
    Reencode,
}

// The modes are the numbers below this one.
const MODES: u32 = 3;

// Takes the samples that the bytes are, as many as there is room for, and says how many.
#[tactic(auto, using(crate::proofs::Taking::taken_more), unfolding(format::specs::Lists::over))]
fn take_samples(bytes: &[u8], words: &mut [i32]) -> usize
    ensures takes { let samples = taken (length words.old) bytes.now in
        (result ≡ length samples) × (words.new ≡ over samples words.old) }
    ensures counts { (result ≤ length words.new) × (result ≡ length (take result words.new)) }
{
    let n = room_length(bytes).min(words.len());
    for i in 0..n {
        words[i] = u8::sample_at(bytes, i);
    }
    n
}

// An entry takes whole samples, and a mode that there is: of anything else only the boundary is asked.
fn is_asked(way: Way, samples: &[u8]) -> bool
    ensures { result ≡ is_asked way samples.now }
{
    let is_whole = samples.len() % 4 == 0;
    match way {
        Way::Encode(mode) => mode < MODES && is_whole,
        Way::Reencode => is_whole,
    }
}

// The entry writes the samples into the room: what it says.
fn write_words(way: Way, samples: &[i32], p: PcmSpec, old: &[u8], room: &mut [u8]) -> Said
    ensures says { let lent = room.old in
        result ≡ entry_says way p old.now samples.now (length lent) }
    ensures puts { let lent = room.old in
        room.new ≡ entry_puts way p old.now samples.now lent }
{
    match way {
        Way::Encode(mode) => of_answer(writer::encode_pcm(samples, p, ncw::mode_of(mode), room)),
        Way::Reencode => of_answer(template::encode_pcm_with_template(samples, p, old, room)),
    }
}

// Whether the entry answers as recorded; where it is not asked, that counts as recorded.
#[tactic(auto, using(crate::proofs::Taking::taken_front))]
fn write_by_entry(
    way: Way,
    samples: &[u8],
    p: PcmSpec,
    old: &[u8],
    spoiled: usize,
    room: &mut [u8],
    want: Recorded,
) -> bool
    ensures says { let before = room.old in
        result ≡ entry_writes way p old.now samples.now spoiled want before }
    ensures leaves { let before = room.old in
        room.new ≡ left_by_entry way p old.now samples.now spoiled before }
{
    if !is_asked(way, samples) {
        return true;
    }
    let mut words = [0i32; MOST_SAMPLES];
    let n = take_samples(samples, &mut words);
    fill_bytes(room);
    let said = write_words(way, &words[..n], p, old, room);
    is_answered(said, spoiled, room, want)
}

// The host boundary does, given the samples as bytes. What was recorded is taken for what it does not tell.
fn write_bytes(
    way: Way,
    samples: &[u8],
    p: PcmSpec,
    old: &[u8],
    room: &mut [u8],
    want: Recorded,
) -> Said
    ensures says { let lent = room.old in
        result ≡ host_says way p old.now samples.now want (length lent) }
    ensures puts { let lent = room.old in
        room.new ≡ host_puts way p old.now samples.now lent }
{
    let channels = p.channels;
    let depth = p.bits_per_sample;
    let rate = p.sample_rate;
    match way {
        Way::Encode(mode) => of_result(
            ncw::ncw_encode(samples, channels, depth, rate, mode, room),
            want,
        ),
        Way::Reencode => of_result(
            ncw::ncw_reencode(samples, channels, depth, rate, old, room),
            want,
        ),
    }
}

// Whether the host boundary tells what it refuses in so many bytes of room, and where, as recorded. Of encoding it
// tells no more than its number: that counts as recorded.
fn host_tells(way: Way, samples: &[u8], p: PcmSpec, old: &[u8], room: u64, want: Recorded) -> bool
    ensures { result ≡ host_tells way p old.now samples.now room want }
{
    let channels = p.channels;
    let depth = p.bits_per_sample;
    let rate = p.sample_rate;
    match way {
        Way::Encode(_) => true,
        Way::Reencode => {
            let told = ncw::ncw_reencode_refusal(samples, channels, depth, rate, old, room);
            told == word_of(want)
        }
    }
}

// Whether the host boundary answers as recorded, and tells what it refuses.
fn write_by_host(
    way: Way,
    samples: &[u8],
    p: PcmSpec,
    old: &[u8],
    spoiled: usize,
    room: &mut [u8],
    want: Recorded,
) -> bool
    ensures says { let before = room.old in
        result ≡ host_writes way p old.now samples.now spoiled want before }
    ensures leaves { let before = room.old in
        room.new ≡ left_by_host way p old.now samples.now spoiled before }
{
    let is_told = host_tells(way, samples, p, old, room.len() as u64, want);
    fill_bytes(room);
    let said = write_bytes(way, samples, p, old, room, want);
    is_answered(said, spoiled, room, want) && is_told
}

// Both are asked, one after the other in one room.
fn judge(
    way: Way,
    samples: &[u8],
    p: PcmSpec,
    old: &[u8],
    spoiled: usize,
    room: &mut [u8],
    want: Recorded,
) -> Verdict
    ensures says { let before = room.old in
        result ≡ verdict_of (both_write way p old.now samples.now spoiled want before) want }
    ensures leaves { let before = room.old in
        room.new ≡ left_by_both way p old.now samples.now spoiled before }
{
    let by_entry = write_by_entry(way, samples, p, old, spoiled, room, want);
    let by_host = write_by_host(way, samples, p, old, spoiled, room, want);
    judged(by_entry && by_host, want)
}

// Encodes the samples with the settings and the mode, and compares with what the list says next. The room is changed
// on purpose at sample `spoiled`, where it reaches so far.
pub fn encode<R: Read>(
    list: &mut R,
    samples: &[u8],
    p: PcmSpec,
    mode: u32,
    spoiled: usize,
    room: &mut [u8],
) -> io::Result<Verdict>
    ensures kept { OnErr result (room.new ≡ room.old) }
{
    let want = read_recorded(list, false)?;
    Ok(judge(Way::Encode(mode), samples, p, &[], spoiled, room, want))
}

// The same, re-encoded with the old file as template.
pub fn reencode<R: Read>(
    list: &mut R,
    samples: &[u8],
    p: PcmSpec,
    old: &[u8],
    spoiled: usize,
    room: &mut [u8],
) -> io::Result<Verdict>
    ensures kept { OnErr result (room.new ≡ room.old) }
{
    let want = read_recorded(list, false)?;
    Ok(judge(Way::Reencode, samples, p, old, spoiled, room, want))
}
