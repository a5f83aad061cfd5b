// A group that is encoded: mid/side where the mode takes it, its length, and its blocks, each in its own part.
#![tactic(auto)]

ghost use Rattle.std.specs.Prelude.{◌≡◌, true, [], ℕ, ◌+◌, ◌*◌, ◌<◌, ◌≤◌, length, get_or};
ghost use Rattle.format.specs.Lists.{over, every};
ghost use Rattle.format.specs.Numbers.{holds};
ghost use Rattle.format.specs.Encoding.{padded_channels, blocks, parity, encoded_group};
ghost use Rattle.format.specs.declared.settings.StereoMode.TheVariants.{Direct};
ghost use Rattle.lent_samples.specs.Lent.{frames_from, GroupFits};
ghost use Rattle.encode_group.specs.Choice.{sizes_of, auto_takes, takes_of};
ghost use Rattle.encode_group.specs.Writable.{Writable};

use format::{PcmSpec, StereoMode};
use lent_samples::Stored;

// A group's length in both forms.
#[derive(Clone, Copy)]
pub struct Sizes {
    pub direct: usize,
    pub mid_side: usize,
}

// The length of two channels' blocks.
#[tactic(auto, unfolding(format::specs::Encoding::blocks, format::specs::Lists::joined))]
fn pair_size(a: [[i32; 512]; 2], depth: u16) -> usize
    requires { depth ≤ 32 }
    ensures { ((flags : ℕ) → result ≡ length (blocks depth flags a)) × (result ≤ 4128) }
{
    encode_block::block_size(a[0], depth) + encode_block::block_size(a[1], depth)
}

// What Auto weighs.
fn both_sizes(a: [[i32; 512]; 2], depth: u16) -> Sizes
    requires { (depth ≤ 32) × (parity a ≡ true) }
    ensures { result ≡ sizes_of depth a }
{
    Sizes {
        direct: pair_size(a, depth),
        mid_side: pair_size(stereo::mid_side(a), depth),
    }
}

// Auto takes mid/side where every frame has equal parity and that is strictly smaller. The choice is the original's,
// and no reproduction of the vendor's.
#[tactic(auto, unfolding(crate::specs::Choice::auto_takes))]
fn auto_takes(a: [[i32; 512]; 2], depth: u16) -> bool
    requires { depth ≤ 32 }
    ensures { result ≡ auto_takes depth a }
{
    if !stereo::parity(a) {
        return false;
    }
    let s = both_sizes(a, depth);
    s.mid_side < s.direct
}

// Whether the mode takes mid/side for a group of two channels.
#[tactic(auto, unfolding(crate::specs::Choice::takes_of))]
fn takes_mid(mode: StereoMode, a: [[i32; 512]; 2], depth: u16) -> bool
    requires { depth ≤ 32 }
    ensures { result ≡ takes_of mode depth a }
{
    match mode {
        StereoMode::Direct => false,
        StereoMode::MidSide => true,
        StereoMode::Auto => auto_takes(a, depth),
    }
}

// Any number of channels, one at a time.
#[tactic(auto, using(crate::proofs::Blocks::nexts), unfolding(format::specs::Lists::joined))]
fn channels_size<E: Stored>(samples: &[E], first: usize, n: usize, p: PcmSpec) -> usize
    requires { (p.bits_per_sample ≤ 32)
        × GroupFits p.channels first n (E.samples samples.now) }
    ensures { let lent = E.samples samples.now in
        let chans = padded_channels p.channels (frames_from p.channels first n lent) in
        (result ≡ length (blocks p.bits_per_sample 0 chans)) × (result ≤ p.channels * 2064) }
{
    let channels = p.channels as usize;
    let mut size: usize = 0;
    for c in 0..channels {
        let run = lent_samples::channel(samples, first, n, channels, c);
        size += encode_block::block_size(run, p.bits_per_sample);
    }
    size
}

// The length of the group of n frames from `first` on.
#[tactic(auto, using(crate::proofs::Groups::groups))]
pub fn group_size<E: Stored>(
    samples: &[E],
    first: usize,
    n: usize,
    p: PcmSpec,
    mode: StereoMode,
) -> usize
    requires { Writable p mode first n (E.samples samples.now) }
    ensures { let lent = E.samples samples.now in
        (result ≡ length (encoded_group p mode (frames_from p.channels first n lent))) × (result ≤ p.channels * 2064) }
{
    if p.channels == 2 {
        let a = lent_samples::split(samples, first, n);
        if takes_mid(mode, a, p.bits_per_sample) {
            return pair_size(stereo::mid_side(a), p.bits_per_sample);
        }
        return pair_size(a, p.bits_per_sample);
    }
    channels_size(samples, first, n, p)
}

// Two blocks at the front of what is lent: their length.
#[tactic(auto, using(crate::proofs::Blocks::pairs))]
fn encode_pair(out: &mut [u8], a: [[i32; 512]; 2], depth: u16, flags: u16) -> usize
    requires { (1 ≤ depth) × (depth ≤ 32)
        × (every (holds depth) (get_or a 0 []) ≡ true) × (every (holds depth) (get_or a 1 []) ≡ true)
        × (length (blocks depth flags a) ≤ length out.old) }
    ensures { (result ≡ length (blocks depth flags a))
        × (out.new ≡ over (blocks depth flags a) out.old) }
{
    let at = encode_block::encode_block(out, a[0], depth, flags);
    at + encode_block::encode_block(&mut out[at..], a[1], depth, flags)
}

// Any number of channels, one at a time.
#[tactic(auto, using(crate::proofs::Groups::channels), unfolding(format::specs::Lists::joined))]
fn encode_channels<E: Stored>(
    out: &mut [u8],
    samples: &[E],
    first: usize,
    n: usize,
    p: PcmSpec,
) -> usize
    requires writable { Writable p Direct first n (E.samples samples.now) }
    requires room { let lent = E.samples samples.now in
        let chans = padded_channels p.channels (frames_from p.channels first n lent) in
        length (blocks p.bits_per_sample 0 chans) ≤ length out.old }
    ensures { let lent = E.samples samples.now in
        let chans = padded_channels p.channels (frames_from p.channels first n lent) in
        let group = blocks p.bits_per_sample 0 chans in
        (result ≡ length group) × (out.new ≡ over group out.old) }
{
    let channels = p.channels as usize;
    let mut at: usize = 0;
    for c in 0..channels {
        let run = lent_samples::channel(samples, first, n, channels, c);
        at += encode_block::encode_block(&mut out[at..], run, p.bits_per_sample, 0);
    }
    at
}

// Writes the group of n frames from `first` on to the front of what is lent: its length.
#[tactic(auto, using(crate::proofs::Groups::groups))]
pub fn encode_group<E: Stored>(
    out: &mut [u8],
    samples: &[E],
    first: usize,
    n: usize,
    p: PcmSpec,
    mode: StereoMode,
) -> usize
    requires writable { Writable p mode first n (E.samples samples.now) }
    requires room { let lent = E.samples samples.now in
        length (encoded_group p mode (frames_from p.channels first n lent)) ≤ length out.old }
    ensures { let lent = E.samples samples.now in
        let group = encoded_group p mode (frames_from p.channels first n lent) in
        (result ≡ length group) × (out.new ≡ over group out.old) }
{
    if p.channels == 2 {
        let a = lent_samples::split(samples, first, n);
        if takes_mid(mode, a, p.bits_per_sample) {
            return encode_pair(out, stereo::mid_side(a), p.bits_per_sample, 1);
        }
        return encode_pair(out, a, p.bits_per_sample, 0);
    }
    encode_channels(out, samples, first, n, p)
}
