// The host boundary, on numbers and byte slices: samples are 4 little-endian bytes each.
#![tactic(auto)]

mod words;

ghost use Rattle.std.specs.Prelude.{◌≡◌, ◌*◌, ◌<◌, ◌^◌};
ghost use Rattle.format.specs.declared.settings.PcmSpec.{PcmSpec};
ghost use Rattle.format.specs.declared.units.Frames.{Frames};
ghost use Rattle.format.specs.declared.units.Samples.{Samples};
ghost use Rattle.format.specs.declared.answers.Outcome.TheVariants.{Read};
ghost use Rattle.format.specs.Boundary.{mode_of, result_of};
ghost use Rattle.format.specs.Promises.{HostOpens, HostDecodes, HostReadsFrames, HostEncodes, HostReencodes};
ghost use Rattle.format.specs.Promises.{HostBuildsPeaks, HostReadsPeak, HostReadsPeaks, HostComparesPeaks};
ghost use Rattle.format.specs.Promises.{HostDecodeRefuses, HostReencodeRefuses};

use crate::words::refusal_word;
use format::{Frames, Outcome, PcmSpec, Refusal, Samples, StereoMode};

// The length in bytes (for opening, what decoding would write), 1 for yes, 0 for no, or 2^63 plus the refusal number.
fn result(outcome: Outcome) -> u64
    requires { (n : Samples) → outcome ≡ Read n → 4 * n.0 < 2 ^ 64 }
    ensures { result ≡ result_of outcome }
{
    match outcome {
        Outcome::Opened(h) => 4 * h.frames.samples(h.channels).0,
        Outcome::Read(n) => 4 * n.0,
        Outcome::Wrote(n) => n,
        Outcome::Refused(r) => 0x8000_0000_0000_0000 + r.number() as u64,
        Outcome::Matches => 1,
        Outcome::Finished | Outcome::Differs => 0,
    }
}

// Opens a file: how many bytes `ncw_decode` would write.
pub fn ncw_open(file: &[u8]) -> u64
    ensures { HostOpens file.now result }
{
    let answer = opening::open(file);
    result(answer.outcome)
}

// Decodes a file into `samples`.
pub fn ncw_decode(file: &[u8], samples: &mut [u8]) -> u64
    ensures { HostDecodes file.now samples.old result samples.new }
{
    let answer = reader::decode_samples(file, samples);
    result(answer.outcome)
}

// Reads `count` frames of a file, from the frame `first` on, into `samples`.
pub fn ncw_read_frames(file: &[u8], first: u32, count: u32, samples: &mut [u8]) -> u64
    ensures { (let first : Frames = record { 0 = first } in
        let count : Frames = record { 0 = count } in
        HostReadsFrames file.now first count samples.old result samples.new) }
{
    let answer = few_frames::read_frames(file, Frames(first), Frames(count), samples);
    result(answer.outcome)
}

// Builds the summary of a file's peaks into `summary`.
pub fn ncw_peaks(file: &[u8], summary: &mut [u8]) -> u64
    ensures { HostBuildsPeaks file.now summary.old result summary.new }
{
    let answer = peaks::build_peaks(file, summary);
    result(answer.outcome)
}

// Reads the pair of a group and a channel from a summary into `pair`: the smallest, the largest.
pub fn ncw_peak(summary: &[u8], group: u32, channel: u32, pair: &mut [u8]) -> u64
    ensures { HostReadsPeak summary.now group channel pair.old result pair.new }
{
    let answer = summary::read_peak(summary, group, channel, pair);
    result(answer.outcome)
}

// Reads all pairs of a summary into `pairs`, groups in order and channels within.
pub fn ncw_peaks_all(summary: &[u8], pairs: &mut [u8]) -> u64
    ensures { HostReadsPeaks summary.now pairs.old result pairs.new }
{
    let answer = summary::read_peaks(summary, pairs);
    result(answer.outcome)
}

// Whether the bytes are the summary of a file: 1 yes, 0 no.
pub fn ncw_peaks_check(summary: &[u8], file: &[u8]) -> u64
    ensures { HostComparesPeaks summary.now file.now result }
{
    let answer = peaks::compare_peaks(summary, file);
    result(answer.outcome)
}

// The modes by number: 0 Auto, 1 Direct, 2 MidSide.
pub fn mode_of(mode: u32) -> StereoMode
    ensures { result ≡ mode_of mode }
{
    match mode {
        0 => StereoMode::Auto,
        1 => StereoMode::Direct,
        _ => StereoMode::MidSide,
    }
}

// Encodes samples into `file`. 38: the mode is unknown; 39: the bytes are no whole samples.
pub fn ncw_encode(
    samples: &[u8],
    channels: u16,
    depth: u16,
    rate: u32,
    mode: u32,
    file: &mut [u8],
) -> u64
    ensures { (let spec : PcmSpec =
        record { channels = channels; bits_per_sample = depth; sample_rate = rate } in
        HostEncodes samples.now spec mode file.old result file.new) }
{
    if 3 <= mode {
        return result(Outcome::Refused(Refusal::UnknownMode));
    }
    if samples.len() % 4 != 0 {
        return result(Outcome::Refused(Refusal::SampleBytes));
    }
    let p = PcmSpec {
        channels,
        bits_per_sample: depth,
        sample_rate: rate,
    };
    let answer = writer::encode_pcm(samples, p, mode_of(mode), file);
    result(answer.outcome)
}

// Re-encodes samples with a template into `file`.
pub fn ncw_reencode(
    samples: &[u8],
    channels: u16,
    depth: u16,
    rate: u32,
    template: &[u8],
    file: &mut [u8],
) -> u64
    ensures { (let spec : PcmSpec =
        record { channels = channels; bits_per_sample = depth; sample_rate = rate } in
        let lent = file.old in
        HostReencodes samples.now spec template.now lent result file.new) }
{
    if samples.len() % 4 != 0 {
        return result(Outcome::Refused(Refusal::SampleBytes));
    }
    let p = PcmSpec {
        channels,
        bits_per_sample: depth,
        sample_rate: rate,
    };
    let answer = template::encode_pcm_with_template(samples, p, template, file);
    result(answer.outcome)
}

// What `ncw_decode` refuses in so many bytes of room, and where; 0 where it decodes. Nothing is written.
pub fn ncw_decode_refusal(file: &[u8], room: u64) -> u64
    ensures { HostDecodeRefuses file.now room result }
{
    let checked = reader::check_decode(file, Samples(room / 4));
    refusal_word(checked)
}

// What `ncw_reencode` refuses in so many bytes of room, and where; 0 where it re-encodes. Nothing is written.
pub fn ncw_reencode_refusal(
    samples: &[u8],
    channels: u16,
    depth: u16,
    rate: u32,
    template: &[u8],
    room: u64,
) -> u64
    ensures { (let spec : PcmSpec =
        record { channels = channels; bits_per_sample = depth; sample_rate = rate } in
        HostReencodeRefuses samples.now spec template.now room result) }
{
    if samples.len() % 4 != 0 {
        return refusal_word(Err(Refusal::SampleBytes.nowhere()));
    }
    let p = PcmSpec {
        channels,
        bits_per_sample: depth,
        sample_rate: rate,
    };
    let checked = template::check_reencode(samples, p, template, room);
    refusal_word(checked)
}
