// The header's numbers and the offset table, and their checks: header.rs of the Rust, and validate_offsets of its
// reader.rs.
#![tactic(auto)]

ghost use Rattle.std.specs.Prelude.{◌≡◌, ◌+◌, ◌*◌, ◌<◌, ◌≤◌, length};
ghost use Rattle.format.specs.Header.{is_signature, fields_of, groups_of, entry};
ghost use Rattle.format.specs.Refusals.{refuse, in_order};
ghost use Rattle.format.specs.Places.{in_group};
ghost use Rattle.format.specs.Opening.{check_fields, check_offsets, bad_entry, check_table};
ghost use Rattle.format.specs.declared.refusals.Refusal.TheVariants.{EntryBounds};

use format::{
    Depth, FILE_SIGNATURE, FILE_SIGNATURE_30, FILE_SIGNATURE_31, Fields, Frames, Refusal,
    RefusedAt, in_group, refuse,
};
use le_bytes::{read_u16_le, read_u32_le, read_u64_le};

// The two signatures, each as one number of eight bytes.
const SIGNATURE_31: u64 = 0x1_0000_0000 * FILE_SIGNATURE_31 as u64 + FILE_SIGNATURE as u64;

const SIGNATURE_30: u64 = 0x1_0000_0000 * FILE_SIGNATURE_30 as u64 + FILE_SIGNATURE as u64;

// Whether the file begins with 01 A8 9E D6 31 01 00 00, or the same with 30 for 31.
pub fn is_signature(s: &[u8]) -> bool
    requires { 8 ≤ length s.now }
    ensures { result ≡ is_signature s.now }
{
    match read_u64_le(s, 0) {
        SIGNATURE_31 => true,
        SIGNATURE_30 => true,
        _ => false,
    }
}

// The header's numbers, from bytes 8 to 31. The bytes after them up to 119 are not looked at: what they mean is
// unknown.
pub fn read_fields(s: &[u8]) -> Fields
    requires { 32 ≤ length s.now }
    ensures { result ≡ fields_of s.now }
{
    Fields {
        channels: read_u16_le(s, 8),
        depth: read_u16_le(s, 10),
        rate: read_u32_le(s, 12),
        frames: Frames(read_u32_le(s, 16)),
        table: read_u32_le(s, 20),
        start: read_u32_le(s, 24),
        size: read_u32_le(s, 28),
    }
}

// The refusals of the fields alone. 10: zero channels. 11: depth not 8, 16, 24, 32. 12: zero rate.
#[tactic(auto, using(laws::proofs::Chain::stages), unfolding(format::specs::Opening::check_fields))]
pub fn check_fields(h: Fields) -> Result<(), RefusedAt>
    ensures { result ≡ check_fields h }
{
    refuse(h.channels == 0, Refusal::ZeroChannels)?;
    refuse(!Depth::is_depth(h.depth), Refusal::DepthUnknown)?;
    refuse(h.rate == 0, Refusal::ZeroRate)
}

// The refusals of the offsets in a file of n bytes. 13: table offset under 120. 14: data offset under table offset.
// 15: wrong table length. 1: the data end past the file.
#[tactic(auto, using(laws::proofs::Chain::stages), unfolding(format::specs::Opening::check_offsets))]
pub fn check_offsets(h: Fields, n: usize) -> Result<(), RefusedAt>
    ensures { result ≡ check_offsets h n }
{
    let frames = h.frames;
    refuse(h.table < 120, Refusal::TableOffset)?;
    refuse(h.start < h.table, Refusal::DataOffset)?;
    refuse(
        h.start - h.table != 4 * (frames.groups() + 1),
        Refusal::TableLength,
    )?;
    refuse(n < h.start as usize + h.size as usize, Refusal::TooShort)
}

// Entry k of the offset table: where group k begins in the data, and where group k - 1 ends.
pub fn entry_at(s: &[u8], h: Fields, k: u32) -> u32
    requires { h.table + 4 * k + 4 ≤ length s.now }
    ensures { result ≡ entry s.now h k }
{
    let at = h.table as usize + 4 * (k as usize);
    read_u32_le(s, at)
}

// Whether group k's end is past the data, before its start, or nearer to it than the smallest blocks that are read:
// of width 1, a header of 16 bytes and 64 of values for each channel.
#[tactic(auto, using(laws::proofs::Chain::either), unfolding(format::specs::Opening::bad_entry))]
fn bad_entry(s: &[u8], h: Fields, k: u32) -> bool
    requires { (k < 8388608) × (h.table + 4 * k + 8 ≤ length s.now) }
    ensures { result ≡ bad_entry s.now h k }
{
    let from = entry_at(s, h, k);
    let to = entry_at(s, h, k + 1);
    h.size < to || to < from || to - from < 80 * (h.channels as u32)
}

// 19 over the groups below g in order: the first whose entries are bad.
#[tactic(auto, using(laws::proofs::Chain::turns))]
fn check_entries(s: &[u8], h: Fields, g: u32) -> Result<(), RefusedAt>
    requires { (g ≤ 8388608) × (h.table + 4 * (g + 1) ≤ length s.now) }
    ensures { let file = s.now in
        result ≡ in_order (λ k. in_group k (refuse (bad_entry file h k) EntryBounds)) g }
{
    for k in 0..g {
        in_group(k, refuse(bad_entry(s, h, k), Refusal::EntryBounds))?;
    }
    Ok(())
}

// The refusals of the table. 16: the last entry is not the data size. Without groups 17: zero frames with data. With
// groups 18: the first entry is not 0; and 19: some group's entries are bad. In line: as a call of its own it
// costs a small file's opening half as much again.
#[inline(always)]
#[tactic(auto, using(laws::proofs::Chain::stages), unfolding(format::specs::Opening::check_table))]
pub fn check_table(s: &[u8], h: Fields) -> Result<(), RefusedAt>
    requires { h.table + 4 * (groups_of h.frames + 1) ≤ length s.now }
    ensures { result ≡ check_table s.now h }
{
    let frames = h.frames;
    let g = frames.groups();
    let first = entry_at(s, h, 0);
    refuse(entry_at(s, h, g) != h.size, Refusal::LastEntry)?;
    refuse(g == 0 && h.size != 0, Refusal::DataWithoutFrames)?;
    refuse(g != 0 && first != 0, Refusal::FirstEntry)?;
    check_entries(s, h, g)
}
