// A template's group with new samples: its checks, and its blocks, each written into its own part.
#![tactic(auto)]

ghost use Rattle.std.specs.Prelude.{◌≡◌, not, List, [], ℕ, ◌+◌, ◌<◌, ◌≤◌, eqb, length, get_or, take};
ghost use Rattle.format.specs.Lists.{over, joined};
ghost use Rattle.format.specs.Blocks.{mid_bit, from_block};
ghost use Rattle.format.specs.Refusals.{Fine, refuse, ◌then◌, in_order};
ghost use Rattle.format.specs.Places.{in_channel};
ghost use Rattle.format.specs.Encoding.{channel, padded};
ghost use Rattle.format.specs.Reencoding.{reencoded_block, check_reencode_block, check_reencode_group, reencoded_group};
ghost use Rattle.format.specs.declared.refusals.Refusal.TheVariants.{TemplateBytesLeft};
ghost use Rattle.lent_samples.specs.Lent.{frames_from, GroupFits};
ghost use Rattle.reencode_group.specs.Given.{Given};

use format::{PcmSpec, Refusal, RefusedAt, in_channel, refuse};
use le_bytes::read_u16_le;
use lent_samples::Stored;
use reencode_block::{check_reencode_block, reencode_block};

// Bit 0 of the first block's flags.
#[tactic(auto, unfolding(format::specs::Blocks::mid_bit))]
fn mid_bit(bs: &[u8]) -> bool
    requires { 12 ≤ length bs.now }
    ensures { result ≡ mid_bit bs.now }
{
    read_u16_le(bs, 10) % 2 == 1
}

// One or two channels of the n frames from `first` on, padded, in the scratch of both.
fn channels_of<E: Stored>(samples: &[E], first: usize, n: usize, channels: u16) -> [[i32; 512]; 2]
    requires { (1 ≤ channels) × (channels ≤ 2)
        × GroupFits channels first n (E.samples samples.now) }
    ensures { let lent = E.samples samples.now in
        let frames = frames_from channels first n lent in
        (c : ℕ) → c < channels → get_or result c [] ≡ padded (channel channels frames c) }
{
    if channels == 2 {
        return lent_samples::split(samples, first, n);
    }
    let l = lent_samples::channel(samples, first, n, 1, 0);
    [l, l]
}

// Each channel in order; then 46: bytes are left over.
fn check_channels(
    bs: &[u8],
    depth: u16,
    channels: u16,
    a: [[i32; 512]; 2],
    n: usize,
) -> Result<(), RefusedAt>
    requires { (1 ≤ depth) × (depth ≤ 32) × (channels ≤ 2) × (0 < n) × (n ≤ 512) }
    ensures { (let rest : ℕ → List ℕ = from_block depth bs.now in
        result ≡ (in_order (λ c. in_channel c (check_reencode_block depth (rest c) (take n (get_or a c [])))) channels
        then refuse (not (eqb (length (rest channels)) 0)) TemplateBytesLeft)) }
{
    let count = channels as usize;
    let mut at: usize = 0;
    for c in 0..count {
        in_channel(c as u16, check_reencode_block(&bs[at..], depth, a[c], n))?;
        at += block::size_of(&bs[at..], depth);
    }
    refuse(at != bs.len(), Refusal::TemplateBytesLeft)
}

// The checks of the template's group bs, for the n frames from `first` on. 43: under 12 bytes; 34: mid/side without two
// channels; 35: a frame's samples differ in parity; then each block.
pub fn check_reencode_group<E: Stored>(
    samples: &[E],
    first: usize,
    n: usize,
    p: PcmSpec,
    bs: &[u8],
) -> Result<(), RefusedAt>
    requires { Given p first n (E.samples samples.now) }
    ensures { let lent = E.samples samples.now in
        let frames = frames_from p.channels first n lent in
        result ≡ check_reencode_group p.bits_per_sample p.channels bs.now frames }
{
    refuse(bs.len() < 12, Refusal::ShortGroup)?;
    let a = channels_of(samples, first, n, p.channels);
    if mid_bit(bs) {
        refuse(p.channels != 2, Refusal::NotStereo)?;
        refuse(!stereo::parity(a), Refusal::ParityDiffers)?;
        return check_channels(bs, p.bits_per_sample, p.channels, stereo::mid_side(a), n);
    }
    check_channels(bs, p.bits_per_sample, p.channels, a, n)
}

// Each channel's block at the front of what the blocks before it left.
fn reencode_channels(
    out: &mut [u8],
    bs: &[u8],
    depth: u16,
    channels: u16,
    a: [[i32; 512]; 2],
    n: usize,
)
    requires { (1 ≤ depth) × (depth ≤ 32) × (channels ≤ 2) × (0 < n) × (n ≤ 512)
        × (in_order (λ c. check_reencode_block depth (from_block depth bs.now c) (take n (get_or a c []))) channels
        ≡ Fine)
        × (length bs.now ≤ length out.old) }
    ensures { (let rest : ℕ → List ℕ = from_block depth bs.now in
        let group = joined (λ c. reencoded_block depth (rest c) (take n (get_or a c []))) channels in
        out.new ≡ over group out.old) }
{
    let count = channels as usize;
    let mut at: usize = 0;
    for c in 0..count {
        at += reencode_block(&mut out[at..], &bs[at..], depth, a[c], n);
    }
}

// Writes the template's group bs with the n frames from `first` on to the front of what is lent.
pub fn reencode_group<E: Stored>(
    out: &mut [u8],
    samples: &[E],
    first: usize,
    n: usize,
    p: PcmSpec,
    bs: &[u8],
)
    requires given { Given p first n (E.samples samples.now) }
    requires accepted { let frames = frames_from p.channels first n (E.samples samples.now) in
        (check_reencode_group p.bits_per_sample p.channels bs.now frames ≡ Fine)
        × (length bs.now ≤ length out.old) }
    ensures { let lent = E.samples samples.now in
        let frames = frames_from p.channels first n lent in
        let group = reencoded_group p.bits_per_sample p.channels bs.now frames in
        out.new ≡ over group out.old }
{
    let a = channels_of(samples, first, n, p.channels);
    let depth = p.bits_per_sample;
    if mid_bit(bs) {
        reencode_channels(out, bs, depth, p.channels, stereo::mid_side(a), n);
    } else {
        reencode_channels(out, bs, depth, p.channels, a, n);
    }
}
