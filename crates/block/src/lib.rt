// One channel's block: its header, its checks, its samples: block.rs of the Rust.
#![tactic(auto)]

ghost use Rattle.std.specs.Prelude.{◌≡◌, cond, not, ◌&&◌, ◌+◌, ◌*◌, ◌/◌, ◌%◌, ◌<◌, ◌≤◌, eqb, length};
ghost use Rattle.format.specs.Packed.{coding, width_of, values, rebuilt};
ghost use Rattle.format.specs.Blocks.{is_block, size_of, samples_of};
ghost use Rattle.format.specs.Decoding.{is_float, check_block};
ghost use Rattle.bits.specs.Place.{WholeRun};
ghost use Rattle.block.specs.Read.{block_header, Whole};

use bits::Cursor;
use format::{BLOCK_SIGNATURE, Coding, Depth, Fields, Refusal, RefusedAt, SampleFormat, refuse};
use le_bytes::{read_u16_le, read_u32_le};

// The numbers of a block's 16-byte header. `base` is the block's first sample where its values are differences;
// `bits` says how they are coded (`coding`); of `flags` bit 0 is mid/side and bit 1 float.
#[derive(Clone, Copy)]
pub struct BlockHeader {
    pub base: i32,
    pub bits: i16,
    pub flags: u16,
}

// Whether a block begins here: with its mark, 16 0C 9A 3E.
#[tactic(auto, using(crate::proofs::Signatures::block_number))]
pub fn is_block(r: &[u8]) -> bool
    requires { 4 ≤ length r.now }
    ensures { result ≡ is_block r.now }
{
    read_u32_le(r, 0) == BLOCK_SIGNATURE
}

impl BlockHeader {
    // The header that r begins with; its mark is not looked at, nor its last four bytes, which are padding.
    #[tactic(auto, using(crate::proofs::Headers::header_is))]
    pub fn read(r: &[u8]) -> BlockHeader
        requires { 16 ≤ length r.now }
        ensures { result ≡ block_header r.now }
    {
        BlockHeader {
            base: read_u32_le(r, 4).cast_signed(),
            bits: read_u16_le(r, 8).cast_signed(),
            flags: read_u16_le(r, 10),
        }
    }

    // Bit 0: the group's channels are mid and side. Only the first channel's decides.
    pub fn is_mid_side(self) -> bool
        ensures { result ≡ eqb (self.flags % 2) 1 }
    {
        self.flags % 2 == 1
    }

    // Bit 1: the samples are the bit patterns of floats.
    pub fn is_float(self) -> bool
        ensures { result ≡ eqb (self.flags / 2 % 2) 1 }
    {
        self.flags / 2 % 2 == 1
    }
}

// How the values are coded, by the range of the bits word: differences at that width, raw values at its absolute
// width, or beyond 32. 0 is raw at the file's depth, as it has historically been decoded: that is not validated
// against Kontakt, which rejected such blocks in live probes, and no writer makes one.
#[tactic(auto, unfolding(format::specs::Packed::coding))]
pub fn coding(depth: u16, bits: i16) -> Coding
    ensures { result ≡ coding depth bits }
{
    match bits {
        1..=32 => Coding::Differences(bits as u32),
        -32..=-1 => Coding::Raw(bits.unsigned_abs() as u32),
        0 => Coding::Raw(depth as u32),
        _ => Coding::Beyond,
    }
}

// The bits of each packed value; 0 where the bits word is beyond 32.
#[tactic(auto, unfolding(format::specs::Packed::width_of))]
pub fn width(coding: Coding) -> u32
    ensures { result ≡ width_of coding }
{
    match coding {
        Coding::Differences(b) | Coding::Raw(b) => b,
        Coding::Beyond => 0,
    }
}

// The length in bytes of the block that r begins with, its header and its values.
#[tactic(auto, using(crate::proofs::Headers::sizes))]
pub fn size_of(r: &[u8], depth: u16) -> usize
    requires { (16 ≤ length r.now) × (depth ≤ 32) }
    ensures { (result ≡ size_of depth r.now) × (result ≤ 2064) }
{
    let b = BlockHeader::read(r);
    Depth::BLOCK_HEADER_SIZE + 64 * width(coding(depth, b.bits)) as usize
}

// Whether the block's format is not the file's.
#[tactic(auto, unfolding(format::specs::Decoding::is_float))]
fn float_differs(format: SampleFormat, float: bool) -> bool
    ensures { result ≡ cond (is_float format) (not float) float }
{
    match format {
        SampleFormat::Pcm => float,
        SampleFormat::Float => !float,
    }
}

// Whether a first block is of mid/side without two channels.
fn mid_side_alone(c: u16, mid: bool, channels: u16) -> bool
    ensures { result ≡ (eqb c 0 && (mid && not (eqb channels 2))) }
{
    c == 0 && mid && channels != 2
}

// The refusals of channel c's block, which r begins with. 1: no whole header. 3: block signature. 20: the float bit
// differs from the file's. 21: mid/side without two channels, on the first channel. 4: a bits word beyond 32. 1: no
// whole values.
#[tactic(auto, using(crate::proofs::Headers::checks), unfolding(format::specs::Decoding::check_block))]
pub fn check_block(h: Fields, format: SampleFormat, c: u16, r: &[u8]) -> Result<(), RefusedAt>
    requires { h.depth ≤ 32 }
    ensures { result ≡ check_block h format c r.now }
{
    refuse(r.len() < Depth::BLOCK_HEADER_SIZE, Refusal::TooShort)?;
    refuse(!is_block(r), Refusal::BlockSignature)?;
    let b = BlockHeader::read(r);
    refuse(float_differs(format, b.is_float()), Refusal::FloatDiffers)?;
    refuse(
        mid_side_alone(c, b.is_mid_side(), h.channels),
        Refusal::MidSideChannels,
    )?;
    let coding = coding(h.depth, b.bits);
    refuse(coding.is_beyond(), Refusal::BitsWord(b.bits))?;
    refuse(r.len() < size_of(r, h.depth), Refusal::TooShort)
}

// Sample 0 is the base, sample k + 1 is sample k plus difference k, as they come from the run.
#[tactic(auto, using(crate::proofs::Sweeps::turn))]
fn rebuild(base: i32, run: &[u8], bits: u32) -> [i32; 512]
    requires { WholeRun run.now bits }
    ensures { result ≡ rebuilt base (values bits run.now) }
{
    let mut out = [0i32; 512];
    let mut cursor = Cursor::start();
    let mut x = base;
    for i in 0..Depth::SAMPLES_PER_BLOCK / 2 {
        let p = cursor.pair(run, bits);
        out[2 * i] = x;
        x = sample::wrapping_add(x, p.first);
        out[2 * i + 1] = x;
        x = sample::wrapping_add(x, p.second);
        cursor = p.cursor;
    }
    out
}

// The 512 samples of the block that r begins with, as they are coded: mid and side are not undone.
#[tactic(auto, using(crate::proofs::Samples::samples), unfolding(format::specs::Blocks::samples_of))]
pub fn read_block(r: &[u8], depth: u16) -> [i32; 512]
    requires { Whole depth r.now }
    ensures { result ≡ samples_of depth r.now }
{
    let b = BlockHeader::read(r);
    let run = &r[Depth::BLOCK_HEADER_SIZE..size_of(r, depth)];
    match coding(depth, b.bits) {
        Coding::Differences(w) => rebuild(b.base, run, w),
        Coding::Raw(w) => bits::packed_values(run, w),
        // no such block is whole
        Coding::Beyond => unreachable!(),
    }
}
