// A block that is encoded: the width that 512 samples take, its length, and its bytes: channel_block of writer.rs.
#![tactic(auto)]

ghost use Rattle.std.specs.Prelude.{◌≡◌, true, ◌++◌, ℕ, ◌+◌, ◌*◌, ◌≤◌, length};
ghost use Rattle.format.specs.Lists.{over, every};
ghost use Rattle.format.specs.Numbers.{holds};
ghost use Rattle.format.specs.Packed.{packing};
ghost use Rattle.format.specs.Encoding.{encoded_block};
ghost use Rattle.encode_block.specs.Front.{front};

use format::{BLOCK_SIGNATURE, Depth};
use le_bytes::{put_u16_le, put_u32_le};

// The length of the block of 512 samples: its differences at their width where that is under the depth, otherwise the
// samples at the depth. The choice is the original's, and no reproduction of the vendor's.
#[tactic(auto, using(crate::proofs::Laws::size))]
pub fn block_size(xs: [i32; 512], depth: u16) -> usize
    requires { depth ≤ 32 }
    ensures { ((flags : ℕ) → result ≡ length (encoded_block depth flags xs)) × (result ≤ 2064) }
{
    let width = packing::width(packing::deltas(xs)).min(depth as u32);
    Depth::BLOCK_HEADER_SIZE + 64 * width as usize
}

// A block's first 16 bytes; bits is the bits word as it is written.
#[tactic(auto, using(crate::proofs::Laws::header_put))]
fn put_header(out: &mut [u8], base: i32, bits: u16, flags: u16)
    requires { 16 ≤ length out.old }
    ensures { out.new ≡ over (front base bits flags) out.old }
{
    put_u32_le(out, 0, BLOCK_SIGNATURE);
    put_u32_le(out, 4, sample::bits_of(base));
    put_u16_le(out, 8, bits);
    put_u16_le(out, 10, flags);
    put_u32_le(out, 12, 0);
}

// A header and the packed values after it, at the front of what is lent, and their length.
#[tactic(auto, using(crate::proofs::Laws::block_put))]
fn put_block(
    out: &mut [u8],
    base: i32,
    bits: u16,
    flags: u16,
    values: [i32; 512],
    width: u32,
) -> usize
    requires { (1 ≤ width) × (width ≤ 32) × (every (holds width) values ≡ true)
        × (16 + 64 * width ≤ length out.old) }
    ensures { (result ≡ 16 + 64 * width)
        × (out.new ≡ over (front base bits flags ++ packing width values) out.old) }
{
    let end = Depth::BLOCK_HEADER_SIZE + 64 * width as usize;
    put_header(out, base, bits, flags);
    // the width holds the values, so nothing is refused
    packing::pack(values, width, &mut out[Depth::BLOCK_HEADER_SIZE..end]).unwrap();
    end
}

// Writes the block of 512 samples to the front of what is lent: its length.
#[tactic(auto, using(crate::proofs::Laws::block_is))]
pub fn encode_block(out: &mut [u8], xs: [i32; 512], depth: u16, flags: u16) -> usize
    requires { (1 ≤ depth) × (depth ≤ 32) × (every (holds depth) xs ≡ true)
        × (length (encoded_block depth flags xs) ≤ length out.old) }
    ensures { (result ≡ length (encoded_block depth flags xs))
        × (out.new ≡ over (encoded_block depth flags xs) out.old) }
{
    let ds = packing::deltas(xs);
    let w = packing::width(ds);
    let d = depth as u32;
    let base = xs[0];
    if w < d {
        return put_block(out, base, w as u16, flags, ds, w);
    }
    put_block(out, base, depth.wrapping_neg(), flags, xs, d)
}
