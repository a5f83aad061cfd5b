// A template's block with new samples: what is packed and what stays, its checks, and its bytes.
#![tactic(auto)]

ghost use Rattle.std.specs.Prelude.{◌≡◌, [], ◌∷◌, ◌++◌, ◌<◌, ◌≤◌, length, take, drop};
ghost use Rattle.format.specs.Refusals.{Fine};
ghost use Rattle.format.specs.Lists.{from, over};
ghost use Rattle.format.specs.Blocks.{coding_of, size_of};
ghost use Rattle.format.specs.Reencoding.{values_for, base_for, reencoded_block, check_reencode_block};
ghost use Rattle.format.specs.declared.packed.Coding.TheVariants.{Differences};
ghost use Rattle.block.specs.Read.{Whole};

use block::BlockHeader;
use format::{Coding, Depth, Refusal, RefusedAt, refuse};
use le_bytes::{copy, put_u32_le, read_u16_le};

// The first n of `front`, and from n on what stands in `back`.
fn splice(front: [i32; 512], back: [i32; 512], n: usize) -> [i32; 512]
    requires { n ≤ 512 }
    ensures { result ≡ take n front ++ drop n back }
{
    let mut out = front;
    out[n..].copy_from_slice(&back[n..]);
    out
}

// Of a difference block: those from the active count on, and always the last, stay.
#[tactic(auto, using(crate::proofs::Values::differ))]
fn differences_for(r: &[u8], depth: u16, bits: u32, xs: [i32; 512], n: usize) -> [i32; 512]
    requires { (Whole depth r.now) × (coding_of depth r.now ≡ Differences bits) × (0 < n) × (n ≤ 512) }
    ensures { result ≡ values_for depth r.now (take n xs) }
{
    let run = &r[Depth::BLOCK_HEADER_SIZE..block::size_of(r, depth)];
    if n == Depth::SAMPLES_PER_BLOCK {
        let mut ds = packing::deltas(xs);
        ds[511] = bits::last_value(run, bits);
        return ds;
    }
    let old = block::read_block(r, depth);
    let ys = splice(xs, old, n);
    splice(packing::deltas(ys), bits::packed_values(run, bits), n)
}

// The values that are packed for the n samples: those that they determine, and those that stay.
#[tactic(auto, using(crate::proofs::Values::value))]
fn values_for(r: &[u8], depth: u16, xs: [i32; 512], n: usize) -> [i32; 512]
    requires { (Whole depth r.now) × (0 < n) × (n ≤ 512) }
    ensures { result ≡ values_for depth r.now (take n xs) }
{
    let b = BlockHeader::read(r);
    match block::coding(depth, b.bits) {
        Coding::Differences(w) => differences_for(r, depth, w, xs, n),
        Coding::Raw(_) => {
            if n == Depth::SAMPLES_PER_BLOCK {
                return xs;
            }
            splice(xs, block::read_block(r, depth), n)
        }
        // no such block is whole
        Coding::Beyond => unreachable!(),
    }
}

// The checks of the template's block that r begins with, for the first n of xs.
#[tactic(auto, using(crate::proofs::Checks::checks))]
pub fn check_reencode_block(r: &[u8], depth: u16, xs: [i32; 512], n: usize) -> Result<(), RefusedAt>
    requires { (1 ≤ depth) × (depth ≤ 32) × (0 < n) × (n ≤ 512) }
    ensures { result ≡ check_reencode_block depth r.now (take n xs) }
{
    refuse(r.len() < Depth::BLOCK_HEADER_SIZE, Refusal::TooShort)?;
    refuse(!block::is_block(r), Refusal::BlockSignature)?;
    let word = read_u16_le(r, 8);
    refuse(word == 0, Refusal::TemplateBits)?;
    refuse(word == 1, Refusal::TemplateBits)?;
    let b = BlockHeader::read(r);
    refuse(1 < b.flags, Refusal::TemplateFlags)?;
    let coding = block::coding(depth, b.bits);
    refuse(coding.is_beyond(), Refusal::BitsWord(b.bits))?;
    refuse(r.len() < block::size_of(r, depth), Refusal::TooShort)?;
    packing::check_fit(values_for(r, depth, xs, n), block::width(coding))
}

// The template's first 16 bytes; the base of a difference block is the first sample.
fn put_header(out: &mut [u8], r: &[u8], coding: Coding, first: i32)
    requires { (16 ≤ length r.now) × (16 ≤ length out.old) }
    ensures { let block = r.now in
        let header = take 4 block ++ (base_for coding block (first ∷ []) ++ from 8 8 block) in
        out.new ≡ over header out.old }
{
    copy(out, &r[..Depth::BLOCK_HEADER_SIZE]);
    if let Coding::Differences(_) = coding {
        put_u32_le(out, 4, sample::bits_of(first));
    }
}

// Writes that block with the first n of xs to the front of what is lent: its length.
#[tactic(auto, using(crate::proofs::Bytes::bytes))]
pub fn reencode_block(out: &mut [u8], r: &[u8], depth: u16, xs: [i32; 512], n: usize) -> usize
    requires { (1 ≤ depth) × (depth ≤ 32) × (0 < n) × (n ≤ 512)
        × (check_reencode_block depth r.now (take n xs) ≡ Fine) × (size_of depth r.now ≤ length out.old) }
    ensures { let block = r.now in
        (result ≡ size_of depth block)
        × (out.new ≡ over (reencoded_block depth block (take n xs)) out.old) }
{
    let b = BlockHeader::read(r);
    let coding = block::coding(depth, b.bits);
    let end = block::size_of(r, depth);
    put_header(out, r, coding, xs[0]);
    let values = values_for(r, depth, xs, n);
    let run = &mut out[Depth::BLOCK_HEADER_SIZE..end];
    // the check passed, so nothing is refused
    packing::pack(values, block::width(coding), run).unwrap();
    end
}
