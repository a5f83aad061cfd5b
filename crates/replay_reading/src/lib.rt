// Opening, decoding, reading a few frames or the pairs of a summary, and a step of a walk, each asked of the proved
// entry and, where it has one, of the host boundary: whether all answer as recorded.
#![tactic(auto)]

ghost use Rattle.std.specs.Prelude.{◌≡◌, length, OnErr};
ghost use Rattle.replay_list.specs.Said.{verdict_of};
ghost use Rattle.replay_reading.specs.Opened.{number_of, is_header, is_opened, is_length, is_refused};
ghost use Rattle.replay_reading.specs.Opened.{both_open, opening_number, opening_verdict};
ghost use Rattle.replay_reading.specs.Read.{entry_says, entry_puts, host_says, host_puts, host_tells};
ghost use Rattle.replay_reading.specs.Read.{entry_reads, left_by_entry, host_reads, left_by_host, both_read};
ghost use Rattle.replay_reading.specs.Stepped.{stepped_words, steps_to};

use format::{Answer, Frames, Header, Outcome, SampleFormat};
use replay_list::{
    ACCEPTED, Recorded, Said, Verdict, fill, fill_bytes, is_answered, is_recorded, is_said, judged,
    of_answer, of_result, read_recorded, read_refusal, read_u8, read_u16, read_u32, spoil, word_of,
};
use std::io;
use std::io::Read;

// What was recorded of a file that opens: its header's numbers.
#[derive(Clone, Copy, PartialEq, Eq)]
struct Opened {
    channels: u16,
    depth: u16,
    rate: u32,
    frames: u32,
    table: u32,
    start: u32,
    size: u32,
    groups: u32,
    format: u32,
}

// What was recorded of opening a file: the numbers of its header, or the refusal.
#[derive(Clone, Copy)]
enum RecordedOpening {
    Opens(Opened),
    Refuses(Recorded),
}

fn read_opened<R: Read>(list: &mut R) -> io::Result<Opened> {
    Ok(Opened {
        channels: read_u16(list)?,
        depth: read_u16(list)?,
        rate: read_u32(list)?,
        frames: read_u32(list)?,
        table: read_u32(list)?,
        start: read_u32(list)?,
        size: read_u32(list)?,
        groups: read_u32(list)?,
        format: read_u8(list)?,
    })
}

fn read_opening<R: Read>(list: &mut R) -> io::Result<RecordedOpening> {
    let number = read_u8(list)?;
    if number == ACCEPTED {
        Ok(RecordedOpening::Opens(read_opened(list)?))
    } else {
        Ok(RecordedOpening::Refuses(read_refusal(list, number)?))
    }
}

// The number of a sample format in the list.
fn number_of(format: SampleFormat) -> u32
    ensures { result ≡ number_of format }
{
    match format {
        SampleFormat::Pcm => 0,
        SampleFormat::Float => 1,
    }
}

// Whether every number of the header is the recorded one.
#[tactic(auto, unfolding(crate::specs::Opened::is_header))]
fn is_header(h: Header, want: Opened) -> bool
    ensures { result ≡ is_header h want }
{
    let read = Opened {
        channels: h.channels,
        depth: h.depth.bits(),
        rate: h.rate,
        frames: h.frames.0,
        table: h.table,
        start: h.start,
        size: h.size,
        groups: h.groups,
        format: number_of(h.format),
    };
    read == want
}

// Whether the file opens, with that header.
fn is_opened(answer: Answer, want: Opened) -> bool
    ensures { result ≡ is_opened answer.outcome want }
{
    match answer.outcome {
        Outcome::Opened(h) => is_header(h, want),
        _ => false,
    }
}

// Whether the host boundary's number is what decoding would write: 4 bytes for each sample.
#[tactic(auto, unfolding(crate::specs::Opened::is_length))]
fn is_length(res: u64, want: Opened) -> bool
    ensures { result ≡ is_length res want }
{
    res == 4 * Frames(want.frames).samples(want.channels).0
}

// Whether that refusal was said; the host boundary's number is 2^63 more than the refusal's.
#[tactic(auto, unfolding(crate::specs::Opened::is_refused))]
fn is_refused(said: Said, res: u64, want: Recorded) -> bool
    ensures { result ≡ is_refused said res want }
{
    is_said(said, want) && res == 0x8000_0000_0000_0000 + u64::from(want.number)
}

// Whether the entry and the host boundary both answer as recorded.
fn both_open(file: &[u8], want: RecordedOpening) -> bool
    ensures { result ≡ both_open file.now want }
{
    let answer = opening::open(file);
    let result = ncw::ncw_open(file);
    match want {
        RecordedOpening::Opens(header) => is_opened(answer, header) && is_length(result, header),
        RecordedOpening::Refuses(refusal) => is_refused(of_answer(answer), result, refusal),
    }
}

fn opening_number(want: RecordedOpening) -> u32
    ensures { result ≡ opening_number want }
{
    match want {
        RecordedOpening::Opens(_) => ACCEPTED,
        RecordedOpening::Refuses(refusal) => refusal.number,
    }
}

fn judge_open(file: &[u8], want: RecordedOpening) -> Verdict
    ensures { result ≡ opening_verdict file.now want }
{
    Verdict {
        is_same: both_open(file, want),
        number: opening_number(want),
        length: 0,
    }
}

// Opens the file, and compares with what the list says next.
pub fn open<R: Read>(list: &mut R, file: &[u8]) -> io::Result<Verdict> {
    let want = read_opening(list)?;
    Ok(judge_open(file, want))
}

// How bytes are read: a file decoded whole, or a range of its frames, by the first and how many; a summary's pair, by
// group and channel, or all its pairs.
#[derive(Clone, Copy)]
enum Way {
    Decode,
    Range(Frames, Frames),
    Pair(u32, u32),
    Pairs,
}

// The entry reads into the room: what it says.
fn read_words(way: Way, file: &[u8], room: &mut [i32]) -> Said
    ensures says { result ≡ entry_says way file.now (length room.old) }
    ensures puts { room.new ≡ entry_puts way file.now room.old }
{
    match way {
        Way::Decode => of_answer(reader::decode_samples(file, room)),
        Way::Range(first, count) => of_answer(few_frames::read_frames(file, first, count, room)),
        Way::Pair(group, channel) => of_answer(summary::read_peak(file, group, channel, room)),
        Way::Pairs => of_answer(summary::read_peaks(file, room)),
    }
}

// Whether the entry answers as recorded, in a room of samples, which is changed at `spoiled` before it is compared.
fn read_by_entry(way: Way, file: &[u8], spoiled: usize, room: &mut [i32], want: Recorded) -> bool
    ensures says { result ≡ entry_reads way file.now spoiled want room.old }
    ensures leaves { room.new ≡ left_by_entry way file.now spoiled room.old }
{
    fill(room);
    let said = read_words(way, file, room);
    spoil(room, spoiled);
    is_recorded(said, want, room)
}

// The host boundary reads into the room. What was recorded is taken for what it does not tell.
fn read_bytes(way: Way, file: &[u8], room: &mut [u8], want: Recorded) -> Said
    ensures says { result ≡ host_says way file.now want (length room.old) }
    ensures puts { room.new ≡ host_puts way file.now room.old }
{
    match way {
        Way::Decode => of_result(ncw::ncw_decode(file, room), want),
        Way::Range(first, count) => of_result(
            ncw::ncw_read_frames(file, first.0, count.0, room),
            want,
        ),
        Way::Pair(group, channel) => of_result(ncw::ncw_peak(file, group, channel, room), want),
        Way::Pairs => of_result(ncw::ncw_peaks_all(file, room), want),
    }
}

// Whether the host boundary tells what it refuses in so many bytes of room, and where, as recorded. Of frames and of
// pairs it tells no more than its number: that counts as recorded.
fn host_tells(way: Way, file: &[u8], room: u64, want: Recorded) -> bool
    ensures { result ≡ host_tells way file.now room want }
{
    match way {
        Way::Decode => ncw::ncw_decode_refusal(file, room) == word_of(want),
        Way::Range(_, _) | Way::Pair(_, _) | Way::Pairs => true,
    }
}

// Whether the host boundary answers as recorded, in a room of bytes, and tells what it refuses.
fn read_by_host(way: Way, file: &[u8], spoiled: usize, room: &mut [u8], want: Recorded) -> bool
    ensures says { result ≡ host_reads way file.now spoiled want room.old }
    ensures leaves { room.new ≡ left_by_host way file.now spoiled room.old }
{
    let is_told = host_tells(way, file, room.len() as u64, want);
    fill_bytes(room);
    let said = read_bytes(way, file, room, want);
    is_answered(said, spoiled, room, want) && is_told
}

// Both are asked, each in a room of its own.
fn judge_read(
    way: Way,
    file: &[u8],
    spoiled: usize,
    words: &mut [i32],
    bytes: &mut [u8],
    want: Recorded,
) -> Verdict
    ensures says { let same = both_read way file.now spoiled want
        words.old bytes.old in result ≡ verdict_of same want }
    ensures leaves { words.new ≡ left_by_entry way file.now spoiled words.old }
    ensures writes { bytes.new ≡ left_by_host way file.now spoiled bytes.old }
{
    let by_entry = read_by_entry(way, file, spoiled, words, want);
    let by_host = read_by_host(way, file, spoiled, bytes, want);
    judged(by_entry && by_host, want)
}

// Decodes the file into each room, and compares with what the list says next. Both rooms are changed on purpose at
// sample `spoiled`, where they reach so far.
pub fn decode<R: Read>(
    list: &mut R,
    file: &[u8],
    spoiled: usize,
    words: &mut [i32],
    bytes: &mut [u8],
) -> io::Result<Verdict>
    ensures kept { OnErr result ((words.new ≡ words.old) × (bytes.new ≡ bytes.old)) }
{
    let want = read_recorded(list, true)?;
    Ok(judge_read(Way::Decode, file, spoiled, words, bytes, want))
}

// The same of so many frames, from a first one on.
pub fn read_frames<R: Read>(
    list: &mut R,
    file: &[u8],
    first: Frames,
    count: Frames,
    spoiled: usize,
    words: &mut [i32],
    bytes: &mut [u8],
) -> io::Result<Verdict>
    ensures kept { OnErr result ((words.new ≡ words.old) × (bytes.new ≡ bytes.old)) }
{
    let want = read_recorded(list, true)?;
    Ok(judge_read(Way::Range(first, count), file, spoiled, words, bytes, want))
}

// The same of the pair of a group and a channel in a summary: its smallest and its largest sample.
pub fn read_peak<R: Read>(
    list: &mut R,
    summary: &[u8],
    group: u32,
    channel: u32,
    spoiled: usize,
    words: &mut [i32],
    bytes: &mut [u8],
) -> io::Result<Verdict>
    ensures kept { OnErr result ((words.new ≡ words.old) × (bytes.new ≡ bytes.old)) }
{
    let want = read_recorded(list, true)?;
    Ok(judge_read(
        Way::Pair(group, channel),
        summary,
        spoiled,
        words,
        bytes,
        want,
    ))
}

// The same of all its pairs.
pub fn read_peaks<R: Read>(
    list: &mut R,
    summary: &[u8],
    spoiled: usize,
    words: &mut [i32],
    bytes: &mut [u8],
) -> io::Result<Verdict>
    ensures kept { OnErr result ((words.new ≡ words.old) × (bytes.new ≡ bytes.old)) }
{
    let want = read_recorded(list, true)?;
    Ok(judge_read(Way::Pairs, summary, spoiled, words, bytes, want))
}

// The walk stands at a group, and after the step is to stand at `next`.
fn judge_step(
    file: &[u8],
    group: u32,
    spoiled: usize,
    room: &mut [i32],
    want: Recorded,
    next: u32,
) -> Verdict
    ensures says { let same = steps_to file.now group spoiled want next
        room.old in result ≡ verdict_of same want }
    ensures leaves { let before = room.old in
        room.new ≡ stepped_words file.now group spoiled before }
{
    fill(room);
    let step = walk::step_at(file, group, room);
    spoil(room, spoiled);
    let is_same = is_recorded(of_answer(step.answer), want, room);
    judged(is_same && step.next == next, want)
}

// One step of a walk that stands at `group`, compared with what the list says next. The room is changed on purpose at
// sample `spoiled`, where it reaches so far.
pub fn step<R: Read>(
    list: &mut R,
    file: &[u8],
    group: u32,
    spoiled: usize,
    room: &mut [i32],
) -> io::Result<Verdict>
    ensures kept { OnErr result (room.new ≡ room.old) }
{
    let want = read_recorded(list, true)?;
    let next = read_u32(list)?;
    Ok(judge_step(file, group, spoiled, room, want, next))
}
