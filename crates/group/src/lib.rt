// One group: its checks, from block headers alone, and its samples, put where they belong in what is lent.
#![tactic(auto)]

ghost use Rattle.std.specs.Prelude.{◌≡◌, ◌+◌, ◌<◌, ◌≤◌};
ghost use Rattle.format.specs.Decoding.{check_group, channels_of};
ghost use Rattle.lent_samples.specs.Lent.{PartFits, frames_put};
ghost use Rattle.group.specs.Readable.{Readable};

use format::{Fields, Refusal, RefusedAt, SampleFormat, in_channel, refuse};
use lent_samples::{Part, Stored};

// The checks of a group, from its block headers alone: each channel in order, then 22: bytes are left over.
#[tactic(auto, using(crate::proofs::Checking::passing), unfolding(format::specs::Decoding::check_group))]
pub fn check_group(h: Fields, format: SampleFormat, bs: &[u8]) -> Result<(), RefusedAt>
    requires { h.depth ≤ 32 }
    ensures { result ≡ check_group h format bs.now }
{
    let mut at: usize = 0;
    for c in 0..h.channels {
        in_channel(c, block::check_block(h, format, c, &bs[at..]))?;
        at += block::size_of(&bs[at..], h.depth);
    }
    refuse(at != bs.len(), Refusal::BytesLeft)
}

// Two channels, in the scratch of both.
#[tactic(auto, using(crate::proofs::Channels::pairs))]
pub fn read_pair(h: Fields, format: SampleFormat, bs: &[u8]) -> [[i32; 512]; 2]
    requires { (Readable h format bs.now) × (h.channels ≡ 2) }
    ensures { result ≡ channels_of h format bs.now }
{
    let second = &bs[block::size_of(bs, h.depth)..];
    let a = [
        block::read_block(bs, h.depth),
        block::read_block(second, h.depth),
    ];
    if block::BlockHeader::read(bs).is_mid_side() {
        return stereo::left_right(format, a);
    }
    a
}

// Any number of channels, one at a time.
fn put_channels<E: Stored>(lent: &mut [E], bs: &[u8], h: Fields, format: SampleFormat, part: Part)
    requires { (Readable h format bs.now) × (h.channels ≡ 2 → ⊥)
        × PartFits part h.channels (E.samples lent.old) }
    ensures puts { E.samples lent.new ≡ frames_put part h.channels (channels_of h format bs.now) (E.samples lent.old) }
    ensures keeps { E.rest lent.new ≡ E.rest lent.old }
{
    let channels = h.channels as usize;
    let mut at: usize = 0;
    for c in 0..channels {
        let run = block::read_block(&bs[at..], h.depth);
        lent_samples::put_channel(lent, part, channels, c, run);
        at += block::size_of(&bs[at..], h.depth);
    }
}

// Puts part of a group's frames where they lie in what is lent. `bs` are the group's bytes, whose checks have passed.
#[tactic(auto, using(crate::proofs::Channels::two_put))]
pub fn put_group<E: Stored>(lent: &mut [E], bs: &[u8], h: Fields, format: SampleFormat, part: Part)
    requires { (Readable h format bs.now) × PartFits part h.channels (E.samples lent.old) }
    ensures puts { E.samples lent.new ≡ frames_put part h.channels (channels_of h format bs.now) (E.samples lent.old) }
    ensures keeps { E.rest lent.new ≡ E.rest lent.old }
{
    if h.channels == 2 {
        let a = read_pair(h, format, bs);
        lent_samples::interleave(lent, part, a);
    } else {
        put_channels(lent, bs, h, format, part);
    }
}
