// The file: header, table, and each group in its own part of the lent output.
ghost use Rattle.std.specs.Prelude.{◌≡◌, ◌++◌, ◌+◌, ◌*◌, ◌/◌, ◌<◌, ◌≤◌, length, replicate};
ghost use Rattle.std.proofs.lemmas.List.Edits.{sets};
ghost use Rattle.format.specs.Lists.{over, joined};
ghost use Rattle.format.specs.Numbers.{le};
ghost use Rattle.format.specs.Header.{signature, groups_of};
ghost use Rattle.format.specs.Encoding.{encoded_group_at, header_bytes, table_of, encoded_file};
ghost use Rattle.writer.specs.Accepted.{Accepted};

use crate::sizing::data_start;
use format::{Depth, FILE_SIGNATURE, FILE_SIGNATURE_31, Frames, PcmSpec, StereoMode};
use le_bytes::{put_u16_le, put_u32_le};
use lent_samples::Stored;

// Bytes 32 to 119: zeros.
fn put_zeros(out: &mut [u8])
    requires { 120 ≤ length out.old }
    ensures { out.new ≡ sets out.old 32 (replicate 88 0) }
{
    out[32..Depth::HEADER_SIZE].fill(0);
}

// Bytes 0 to 15: the signature and the settings.
#[tactic(auto, unfolding(format::specs::Header::signature, format::specs::Numbers::le, format::specs::Numbers::digits))]
fn write_settings(out: &mut [u8], p: PcmSpec)
    requires { 16 ≤ length out.old }
    ensures { let format = le 2 p.bits_per_sample ++ le 4 p.sample_rate in
        out.new ≡ sets out.old 0 (signature 0x31 ++ (le 2 p.channels ++ format)) }
{
    put_u32_le(out, 0, FILE_SIGNATURE);
    put_u32_le(out, 4, FILE_SIGNATURE_31);
    put_u16_le(out, 8, p.channels);
    put_u16_le(out, 10, p.bits_per_sample);
    put_u32_le(out, 12, p.sample_rate);
}

// Bytes 16 to 31: how many frames, where the table and the data begin, and the data's size.
#[tactic(auto, unfolding(format::specs::Numbers::le, format::specs::Numbers::digits))]
fn write_places(out: &mut [u8], frames: Frames, start: u32, size: u32)
    requires { 32 ≤ length out.old }
    ensures { let places = le 4 frames.0 ++ (le 4 120 ++ (le 4 start ++ le 4 size)) in
        out.new ≡ sets out.old 16 places }
{
    put_u32_le(out, 16, frames.0);
    put_u32_le(out, 20, 120);
    put_u32_le(out, 24, start);
    put_u32_le(out, 28, size);
}

// Bytes 0 to 119.
#[tactic(auto, using(crate::proofs::Heading::header_put))]
fn write_header(out: &mut [u8], p: PcmSpec, frames: Frames, start: u32, size: u32)
    requires { 120 ≤ length out.old }
    ensures { out.new ≡ over (header_bytes p frames start size) out.old }
{
    write_settings(out, p);
    write_places(out, frames, start, size);
    put_zeros(out);
}

// The table, and the groups one after another from the data offset on.
#[tactic(auto, using(crate::proofs::Groups::turns_of_groups), unfolding(format::specs::Lists::joined))]
fn write_groups<E: Stored>(
    samples: &[E],
    p: PcmSpec,
    mode: StereoMode,
    frames: Frames,
    out: &mut [u8],
)
    requires accepted { let lent = E.samples samples.now in
        (Accepted p mode lent) × (frames.0 ≡ length lent / p.channels) }
    requires room { let all = joined (encoded_group_at p mode (E.samples samples.now)) (groups_of frames) in
        (length all < 4294967296) × (120 + 4 * (groups_of frames + 1) + length all ≤ length out.old) }
    ensures { let group = encoded_group_at p mode (E.samples samples.now) in
        let groups = groups_of frames in
        out.new ≡ sets out.old 120 (table_of group groups ++ joined group groups) }
{
    let groups = frames.groups();
    let start = data_start(frames) as usize;
    let mut at: usize = 0;
    for g in 0..groups {
        put_u32_le(out, Depth::HEADER_SIZE + 4 * g as usize, at as u32);
        let n = frames.active(g).0 as usize;
        let first = Depth::SAMPLES_PER_BLOCK * g as usize;
        let part = &mut out[start + at..];
        at += encode_group::encode_group(part, samples, first, n, p, mode);
    }
    put_u32_le(out, Depth::HEADER_SIZE + 4 * groups as usize, at as u32);
}

// The whole file, at the front of what is lent; `size` is how many bytes its groups take.
#[tactic(auto, using(crate::proofs::Heading::files))]
pub fn write_file<E: Stored>(
    samples: &[E],
    p: PcmSpec,
    mode: StereoMode,
    frames: Frames,
    size: u32,
    out: &mut [u8],
)
    requires { let lent = E.samples samples.now in
        (Accepted p mode lent) × (frames.0 ≡ length lent / p.channels)
        × (size ≡ length (joined (encoded_group_at p mode lent) (groups_of frames)))
        × (length (encoded_file p mode lent) ≤ length out.old) }
    ensures { let lent = E.samples samples.now in
        out.new ≡ over (encoded_file p mode lent) out.old }
{
    write_header(out, p, frames, data_start(frames), size);
    write_groups(samples, p, mode, frames, out);
}
