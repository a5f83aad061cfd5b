// The checks before any length is known: the settings (30), the samples (31 to 33), mid/side (34, 35).
ghost use Rattle.std.specs.Prelude.{◌≡◌, Bool, not, ℕ, ◌*◌, length};
ghost use Rattle.format.specs.Header.{groups_of};
ghost use Rattle.format.specs.Refusals.{refuse, ◌then◌, in_order};
ghost use Rattle.format.specs.Places.{in_group};
ghost use Rattle.format.specs.Encoding.{unwoven, parity, group_in, check_encoder, check_samples, check_stereo};
ghost use Rattle.format.specs.declared.refusals.Refusal.TheVariants.{ParityDiffers};
ghost use Rattle.validate.specs.Whole.{WholeFrames};

use format::{Depth, Frames, PcmSpec, Refusal, RefusedAt, StereoMode, in_group, refuse};
use lent_samples::Stored;

// 35 over the groups of two channels in order: the first in which a frame's samples differ in parity.
#[tactic(auto, using(crate::proofs::Groups::parities))]
fn check_parity<E: Stored>(samples: &[E], frames: Frames) -> Result<(), RefusedAt>
    requires { length (E.samples samples.now) ≡ 2 * frames.0 }
    ensures { (let lent = E.samples samples.now in
        let differs : ℕ → Bool = λ g. not (parity (unwoven 2 (group_in 2 lent g))) in
        result ≡ in_order (λ g. in_group g (refuse (differs g) ParityDiffers)) (groups_of frames)) }
{
    for g in 0..frames.groups() {
        let n = frames.active(g).0 as usize;
        let first = Depth::SAMPLES_PER_BLOCK * g as usize;
        let is_equal = stereo::frames_parity(samples, first, n);
        in_group(g, refuse(!is_equal, Refusal::ParityDiffers))?;
    }
    Ok(())
}

// Of MidSide, 34: not two channels; 35: a frame's samples differ in parity.
#[tactic(auto, using(crate::proofs::Input::asks), unfolding(format::specs::Encoding::is_mid_side))]
fn check_stereo<E: Stored>(samples: &[E], p: PcmSpec, mode: StereoMode) -> Result<(), RefusedAt>
    requires { WholeFrames p.channels (E.samples samples.now) }
    ensures { result ≡ check_stereo p mode (E.samples samples.now) }
{
    match mode {
        StereoMode::Auto | StereoMode::Direct => Ok(()),
        StereoMode::MidSide => {
            refuse(p.channels != 2, Refusal::NotStereo)?;
            let frames = validate::frames_of(samples, 2);
            check_parity(samples, frames)
        }
    }
}

// All of these, in order.
#[tactic(auto, using(crate::proofs::Input::inputs))]
pub fn check_input<E: Stored>(samples: &[E], p: PcmSpec, mode: StereoMode) -> Result<(), RefusedAt>
    ensures { let lent = E.samples samples.now in
        result ≡ (check_encoder p then check_samples p lent then check_stereo p mode lent) }
{
    validate::check_encoder(p)?;
    validate::check_samples(samples, p)?;
    check_stereo(samples, p, mode)
}
