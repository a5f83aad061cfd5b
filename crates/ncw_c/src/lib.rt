// The host boundary for C, a static library: ncw's functions by their names, with their clauses. C passes a slice as a
// pointer and a length.
#![tactic(auto)]

ghost use Rattle.format.specs.declared.settings.PcmSpec.{PcmSpec};
ghost use Rattle.format.specs.declared.units.Frames.{Frames};
ghost use Rattle.format.specs.Promises.{HostOpens, HostDecodes, HostReadsFrames, HostEncodes, HostReencodes};
ghost use Rattle.format.specs.Promises.{HostBuildsPeaks, HostReadsPeak, HostReadsPeaks, HostComparesPeaks};
ghost use Rattle.format.specs.Promises.{HostDecodeRefuses, HostReencodeRefuses};

// Opens a file: how many bytes `ncw_decode` would write.
#[unsafe(no_mangle)]
pub extern "C" fn ncw_open(file: &[u8]) -> u64
    ensures { HostOpens file.now result }
{
    ncw::ncw_open(file)
}

// Decodes a file into `samples`.
#[unsafe(no_mangle)]
pub extern "C" fn ncw_decode(file: &[u8], samples: &mut [u8]) -> u64
    ensures { HostDecodes file.now samples.old result samples.new }
{
    ncw::ncw_decode(file, samples)
}

// Reads `count` frames of a file, from the frame `first` on, into `samples`.
#[unsafe(no_mangle)]
pub extern "C" fn ncw_read_frames(file: &[u8], first: u32, count: u32, samples: &mut [u8]) -> u64
    ensures { (let first : Frames = record { 0 = first } in
        let count : Frames = record { 0 = count } in
        HostReadsFrames file.now first count samples.old result samples.new) }
{
    ncw::ncw_read_frames(file, first, count, samples)
}

// Builds the summary of a file's peaks into `summary`.
#[unsafe(no_mangle)]
pub extern "C" fn ncw_peaks(file: &[u8], summary: &mut [u8]) -> u64
    ensures { HostBuildsPeaks file.now summary.old result summary.new }
{
    ncw::ncw_peaks(file, summary)
}

// Reads the pair of a group and a channel from a summary into `pair`: the smallest, the largest.
#[unsafe(no_mangle)]
pub extern "C" fn ncw_peak(summary: &[u8], group: u32, channel: u32, pair: &mut [u8]) -> u64
    ensures { HostReadsPeak summary.now group channel pair.old result pair.new }
{
    ncw::ncw_peak(summary, group, channel, pair)
}

// Reads all pairs of a summary into `pairs`, groups in order and channels within.
#[unsafe(no_mangle)]
pub extern "C" fn ncw_peaks_all(summary: &[u8], pairs: &mut [u8]) -> u64
    ensures { HostReadsPeaks summary.now pairs.old result pairs.new }
{
    ncw::ncw_peaks_all(summary, pairs)
}

// Whether the bytes are the summary of a file: 1 yes, 0 no.
#[unsafe(no_mangle)]
pub extern "C" fn ncw_peaks_check(summary: &[u8], file: &[u8]) -> u64
    ensures { HostComparesPeaks summary.now file.now result }
{
    ncw::ncw_peaks_check(summary, file)
}

// Encodes samples into `file`. 38: the mode is unknown; 39: the bytes are no whole samples.
#[unsafe(no_mangle)]
pub extern "C" fn ncw_encode(
    samples: &[u8],
    channels: u16,
    depth: u16,
    rate: u32,
    mode: u32,
    file: &mut [u8],
) -> u64
    ensures { (let spec : PcmSpec =
        record { channels = channels; bits_per_sample = depth; sample_rate = rate } in
        HostEncodes samples.now spec mode file.old result file.new) }
{
    ncw::ncw_encode(samples, channels, depth, rate, mode, file)
}

// Re-encodes samples with a template into `file`.
#[unsafe(no_mangle)]
pub extern "C" fn ncw_reencode(
    samples: &[u8],
    channels: u16,
    depth: u16,
    rate: u32,
    template: &[u8],
    file: &mut [u8],
) -> u64
    ensures { (let spec : PcmSpec =
        record { channels = channels; bits_per_sample = depth; sample_rate = rate } in
        let lent = file.old in
        HostReencodes samples.now spec template.now lent result file.new) }
{
    ncw::ncw_reencode(samples, channels, depth, rate, template, file)
}

// What `ncw_decode` refuses in so many bytes of room, and where; 0 where it decodes. Nothing is written.
#[unsafe(no_mangle)]
pub extern "C" fn ncw_decode_refusal(file: &[u8], room: u64) -> u64
    ensures { HostDecodeRefuses file.now room result }
{
    ncw::ncw_decode_refusal(file, room)
}

// What `ncw_reencode` refuses in so many bytes of room, and where; 0 where it re-encodes. Nothing is written.
#[unsafe(no_mangle)]
pub extern "C" fn ncw_reencode_refusal(
    samples: &[u8],
    channels: u16,
    depth: u16,
    rate: u32,
    template: &[u8],
    room: u64,
) -> u64
    ensures { (let spec : PcmSpec =
        record { channels = channels; bits_per_sample = depth; sample_rate = rate } in
        HostReencodeRefuses samples.now spec template.now room result) }
{
    ncw::ncw_reencode_refusal(samples, channels, depth, rate, template, room)
}
