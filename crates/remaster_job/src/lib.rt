// The main job on a file: decode, re-encode with the file as template, compare. What it prints is another crate's
// work.
#![tactic(auto)]

mod halving;

ghost use Rattle.std.specs.Prelude.{◌≡◌};
ghost use Rattle.format.specs.Reencoding.{reencode_into};
ghost use Rattle.remaster_job.specs.Halving.{halved_into};
ghost use Rattle.remaster_job.specs.Reports.{spec_of, is_itself, restored_of, kept_of};
ghost use Rattle.remaster_job.specs.Reports.{written_of, rewritten_of, read_back_of, report_of};

use crate::halving::halve;
use format::{Answer, Header, PcmSpec};
use opening::open;
use reader::decode_samples;
use remaster_compare::{Count, block_count, same_bytes, same_headers, same_samples};
use template::encode_pcm_with_template;

// The file's own samples with a template: whether what is written is the file itself.
#[derive(Clone, Copy)]
pub struct Restored {
    pub answer: Answer,
    pub is_itself: bool,
}

// How much of a file is the same in another: bytes, those before the data, block headers, and bytes behind the data.
#[derive(Clone, Copy)]
pub struct Kept {
    pub all: Count,
    pub before: Count,
    pub headers: Count,
    pub behind: Count,
}

// Of what was written: it is opened and decoded, the samples are compared with the halved ones, and it is the
// template with which the file is restored again.
#[derive(Clone, Copy)]
pub struct ReadBack {
    pub opened: Answer,
    pub decoded: Answer,
    pub halves: Count,
    pub restored: Restored,
}

// The file restored with itself as template, and what its samples, halved, make of it.
#[derive(Clone, Copy)]
pub struct Rewritten {
    pub restored: Restored,
    pub written: Answer,
    pub kept: Kept,
}

// What the job found: of decoding, of re-encoding, and of what was written.
#[derive(Clone, Copy)]
pub struct Report {
    pub decoded: Answer,
    pub rewritten: Rewritten,
    pub back: ReadBack,
}

// The settings that the header has.
fn spec_of(h: Header) -> PcmSpec
    ensures { result ≡ spec_of h }
{
    PcmSpec {
        channels: h.channels,
        bits_per_sample: h.depth.bits(),
        sample_rate: h.rate,
    }
}

// Whether every byte of the file is the same in what was written.
fn is_itself(file: &[u8], written: &[u8]) -> bool
    ensures { result ≡ is_itself file.now written.now }
{
    same_bytes(file, written, 0, file.len()).are_same()
}

// Re-encodes the file's own samples: a template with all that the samples leave open restores the file.
fn restore(file: &[u8], p: PcmSpec, own: &[i32], template: &[u8], out: &mut [u8]) -> Restored
    ensures says { let lent = out.old in
        result ≡ restored_of p file.now own.now template.now lent }
    ensures puts { let lent = out.old in
        out.new ≡ reencode_into p own.now template.now lent }
{
    let answer = encode_pcm_with_template(own, p, template, out);
    Restored {
        answer,
        is_itself: is_itself(file, out),
    }
}

// How much of the file is the same in what was written.
fn kept_in(file: &[u8], written: &[u8], h: Header) -> Kept
    ensures { result ≡ kept_of h file.now written.now }
{
    let start = h.start as usize;
    let end = start + h.size as usize;
    Kept {
        all: same_bytes(file, written, 0, file.len()),
        before: same_bytes(file, written, 0, start),
        headers: same_headers(file, written, h.depth.bits(), start, block_count(h)),
        behind: same_bytes(file, written, end, file.len()),
    }
}

// Looks at what was written with the halved samples.
fn read_back(
    file: &[u8],
    p: PcmSpec,
    own: &[i32],
    halves: &[i32],
    written: &[u8],
    room: &mut [i32],
    again: &mut [u8],
) -> ReadBack
    ensures { result ≡ read_back_of p file.now own.now halves.now
        written.now room.old again.old }
{
    let decoded = decode_samples(written, room);
    ReadBack {
        opened: open(written),
        decoded,
        halves: same_samples(halves, room, halves.len()),
        restored: restore(file, p, own, written, again),
    }
}

// Re-encodes with the file as template: its own samples, and then these halved, into the same room.
fn rewrite(
    file: &[u8],
    h: Header,
    p: PcmSpec,
    own: &[i32],
    new: &mut [i32],
    out: &mut [u8],
) -> Rewritten
    ensures says { let halves = halved_into own.now new.old in
        result ≡ rewritten_of h p file.now own.now halves out.old }
    ensures halves { new.new ≡ halved_into own.now new.old }
    ensures puts { let halves = halved_into own.now new.old in
        out.new ≡ written_of p file.now own.now halves out.old }
{
    let restored = restore(file, p, own, file, out);
    halve(own, new);
    let written = encode_pcm_with_template(new, p, file, out);
    Rewritten {
        restored,
        written,
        kept: kept_in(file, out, h),
    }
}

// Does the whole job on a file of that header. Lent is room for its samples, for the halved ones, for what is
// written, for the samples read back, and for the file restored. A refusal leaves what was lent as it was, and what
// follows is done with that.
pub fn job(
    file: &[u8],
    h: Header,
    old: &mut [i32],
    new: &mut [i32],
    out: &mut [u8],
    room: &mut [i32],
    again: &mut [u8],
) -> Report
    ensures { result ≡ report_of h file.now old.old new.old
        out.old room.old again.old }
{
    let p = spec_of(h);
    let decoded = decode_samples(file, old);
    let rewritten = rewrite(file, h, p, old, new, out);
    Report {
        decoded,
        rewritten,
        back: read_back(file, p, old, new, out, room, again),
    }
}
