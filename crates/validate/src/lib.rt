// What a writer is given, its settings and its samples, and the refusals of both: `validate` of writer.rs. 30: the
// settings are not a writer's; 31: the last frame is incomplete; 32: a value is outside the depth; 33: too many frames.
#![tactic(auto)]

ghost use Rattle.std.specs.Prelude.{◌≡◌, List, [], ◌∷◌, ℕ, ◌/◌, ◌≤◌, length};
ghost use Rattle.format.specs.Lists.{every, is_in};
ghost use Rattle.format.specs.Units.{within, frames_in};
ghost use Rattle.format.specs.Encoding.{check_spec, check_encoder, check_samples};
ghost use Rattle.format.specs.Reencoding.{check_reencoder};
ghost use Rattle.validate.specs.Whole.{WholeFrames};

use format::{Depth, Frames, PcmSpec, Refusal, RefusedAt, Unframed, refuse};
use lent_samples::Stored;

// 30 of a writer that takes 1 to `most` channels; listed: whether it takes the depth.
#[tactic(auto, using(laws::proofs::Chain::stages), unfolding(format::specs::Encoding::check_spec))]
fn check_spec(p: PcmSpec, most: u16, listed: bool) -> Result<(), RefusedAt>
    ensures { (depths : List ℕ)
        → listed ≡ is_in p.bits_per_sample depths → result ≡ check_spec most depths p }
{
    refuse(p.channels == 0, Refusal::WriterSpec)?;
    refuse(most < p.channels, Refusal::WriterSpec)?;
    refuse(!listed, Refusal::WriterSpec)?;
    refuse(p.sample_rate == 0, Refusal::WriterSpec)
}

// The depths that the re-encoder takes.
#[tactic(auto, unfolding(format::specs::Lists::is_in))]
fn reencoder_depth(bits: u16) -> bool
    ensures { result ≡ is_in bits (16 ∷ 24 ∷ []) }
{
    matches!(bits, 16 | 24)
}

// The encoder's 30: its limits stand here. It takes every depth there is.
pub fn check_encoder(p: PcmSpec) -> Result<(), RefusedAt>
    ensures { result ≡ check_encoder p }
{
    check_spec(p, 8, Depth::is_depth(p.bits_per_sample))
}

// The re-encoder's 30, with limits of its own.
#[tactic(auto, unfolding(format::specs::Reencoding::check_reencoder))]
pub fn check_reencoder(p: PcmSpec) -> Result<(), RefusedAt>
    ensures { result ≡ check_reencoder p }
{
    check_spec(p, 2, reencoder_depth(p.bits_per_sample))
}

// How many frames the samples are, or why they are none.
fn framed<E: Stored>(samples: &[E], channels: u16) -> Result<Frames, Unframed>
    ensures { let lent = E.samples samples.now in
        result ≡ frames_in (record { 0 = length lent }) channels }
{
    let samples = E::count(samples);
    samples.frames(channels)
}

// Whether every sample lies in the depth's own range. All lie in that of 32 bits: with that depth as a constant nothing
// is left to ask, and the compiler leaves no loop.
fn none_outside<E: Stored>(samples: &[E], depth: Depth) -> bool
    ensures { let lent = E.samples samples.now in
        result ≡ every (within depth) lent }
{
    match depth {
        Depth::ThirtyTwo => lent_samples::all_within(samples, Depth::ThirtyTwo),
        _ => lent_samples::all_within(samples, depth),
    }
}

// The samples' refusals, in order. 31: the last frame is incomplete. 32: a value is outside the depth. 33: too many
// frames.
pub fn check_samples<E: Stored>(samples: &[E], p: PcmSpec) -> Result<(), RefusedAt>
    requires { 1 ≤ p.channels }
    ensures { result ≡ check_samples p (E.samples samples.now) }
{
    let frames = framed(samples, p.channels);
    let depth = Depth::of(p.bits_per_sample);
    refuse(
        matches!(frames, Err(Unframed::Incomplete)),
        Refusal::IncompleteFrame,
    )?;
    refuse(!none_outside(samples, depth), Refusal::ValueOutside)?;
    refuse(
        matches!(frames, Err(Unframed::TooMany)),
        Refusal::TooManyFrames,
    )
}

// How many frames the samples are, once 31 to 33 have passed.
#[tactic(auto, unfolding(format::specs::Units::frames_in))]
pub fn frames_of<E: Stored>(samples: &[E], channels: u16) -> Frames
    requires { WholeFrames channels (E.samples samples.now) }
    ensures { result.0 ≡ length (E.samples samples.now) / channels }
{
    framed(samples, channels).unwrap()
}
