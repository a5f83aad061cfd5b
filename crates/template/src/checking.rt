// Every refusal, in order.
ghost use Rattle.std.specs.Prelude.{◌≡◌, List, ℕ, ◌+◌, ◌*◌, ◌≤◌, leb, ℤ, length};
ghost use Rattle.format.specs.Lists.{any_below};
ghost use Rattle.format.specs.Header.{fields_of, groups_of, entry, group_bytes};
ghost use Rattle.format.specs.Refusals.{Checked, Fine, in_order};
ghost use Rattle.format.specs.Places.{in_group};
ghost use Rattle.format.specs.Encoding.{group_in, check_samples};
ghost use Rattle.format.specs.Reencoding.{check_reencoder, check_reencode_group, check_same, check_bounds};
ghost use Rattle.format.specs.Reencoding.{check_rising, check_template, check_reencode, check_reencode_into};

use format::{Depth, Fields, Frames, PcmSpec, Refusal, RefusedAt, in_group, refuse};
use lent_samples::Stored;

// 40: the template is of other settings or another number of frames.
#[tactic(auto, using(laws::proofs::Chain::stages), unfolding(format::specs::Reencoding::check_same))]
fn check_same(p: PcmSpec, frames: Frames, h: Fields) -> Result<(), RefusedAt>
    ensures { result ≡ check_same p frames h }
{
    refuse(h.channels != p.channels, Refusal::TemplateDiffers)?;
    refuse(h.depth != p.bits_per_sample, Refusal::TemplateDiffers)?;
    refuse(h.rate != p.sample_rate, Refusal::TemplateDiffers)?;
    refuse(h.frames.0 != frames.0, Refusal::TemplateDiffers)
}

// 41: its table or its data do not lie where they can; what opening refuses by 13 to 15 and 1.
#[tactic(auto, using(crate::proofs::Stages::bounds_are))]
fn check_bounds(h: Fields, n: usize) -> Result<(), RefusedAt>
    ensures { result ≡ check_bounds h n }
{
    refuse(
        header::check_offsets(h, n).is_err(),
        Refusal::TemplateBounds,
    )
}

// Whether an entry of the first n is not below the next.
#[tactic(auto, using(crate::proofs::Stages::falling))]
fn any_falls(t: &[u8], h: Fields, n: u32) -> bool
    requires { (n ≤ 8388608) × (h.table + 4 * (n + 1) ≤ length t.now) }
    ensures { let file = t.now in
        result ≡ any_below (λ k. leb (entry file h (k + 1)) (entry file h k)) n }
{
    for k in 0..n {
        if header::entry_at(t, h, k + 1) <= header::entry_at(t, h, k) {
            return true;
        }
    }
    false
}

// 42: the table does not rise from 0 to the data's size.
#[tactic(auto, using(laws::proofs::Chain::stages), unfolding(format::specs::Reencoding::check_rising))]
fn check_rising(t: &[u8], h: Fields) -> Result<(), RefusedAt>
    requires { h.table + 4 * (groups_of h.frames + 1) ≤ length t.now }
    ensures { result ≡ check_rising t.now h }
{
    let frames = h.frames;
    let groups = frames.groups();
    refuse(header::entry_at(t, h, 0) != 0, Refusal::TemplateOffsets)?;
    refuse(
        header::entry_at(t, h, groups) != h.size,
        Refusal::TemplateOffsets,
    )?;
    refuse(any_falls(t, h, groups), Refusal::TemplateOffsets)
}

// The template as a whole. 1: under 120 bytes; 2: not the signature; then 40 to 42.
#[tactic(auto, using(laws::proofs::Chain::stages), unfolding(format::specs::Reencoding::check_template))]
fn check_template<E: Stored>(samples: &[E], p: PcmSpec, t: &[u8]) -> Result<(), RefusedAt>
    requires { (check_reencoder p ≡ Fine) × (check_samples p (E.samples samples.now) ≡ Fine) }
    ensures { let lent = E.samples samples.now in
        result ≡ check_template p lent t.now }
{
    refuse(t.len() < Depth::HEADER_SIZE, Refusal::TooShort)?;
    refuse(!header::is_signature(t), Refusal::FileSignature)?;
    let h = header::read_fields(t);
    let frames = validate::frames_of(samples, p.channels);
    check_same(p, frames, h)?;
    check_bounds(h, t.len())?;
    check_rising(t, h)
}

// Each group in order.
#[tactic(auto, using(laws::proofs::Chain::turns))]
fn check_groups<E: Stored>(samples: &[E], p: PcmSpec, t: &[u8], h: Fields) -> Result<(), RefusedAt>
    requires { let lent = E.samples samples.now in
        (check_reencoder p ≡ Fine) × (check_samples p lent ≡ Fine) × (check_template p lent t.now ≡ Fine)
        × (h ≡ fields_of t.now) }
    ensures { (let lent = E.samples samples.now in
        let file = t.now in
        let old : ℕ → List ℕ = group_bytes file h in
        let new : ℕ → List ℤ = group_in h.channels lent in
        let check : ℕ → Checked = λ g. in_group g (check_reencode_group h.depth h.channels (old g) (new g)) in
        result ≡ in_order check (groups_of h.frames)) }
{
    let start = h.start as usize;
    let frames = h.frames;
    let groups = frames.groups();
    for g in 0..groups {
        let a = start + header::entry_at(t, h, g) as usize;
        let e = start + header::entry_at(t, h, g + 1) as usize;
        let n = frames.active(g).0 as usize;
        in_group(
            g,
            reencode_group::check_reencode_group(
                samples,
                Depth::SAMPLES_PER_BLOCK * g as usize,
                n,
                p,
                &t[a..e],
            ),
        )?;
    }
    Ok(())
}

// 30 to 33, then the template, then its groups.
#[tactic(auto, using(laws::proofs::Chain::stages), unfolding(format::specs::Reencoding::check_reencode))]
fn check_file<E: Stored>(samples: &[E], p: PcmSpec, t: &[u8]) -> Result<(), RefusedAt>
    ensures { let lent = E.samples samples.now in
        result ≡ check_reencode p lent t.now }
{
    validate::check_reencoder(p)?;
    validate::check_samples(samples, p)?;
    check_template(samples, p, t)?;
    check_groups(samples, p, t, header::read_fields(t))
}

// All that, then 50: there is less room than the template is long.
#[tactic(auto, using(laws::proofs::Chain::steps), unfolding(format::specs::Reencoding::check_reencode_into))]
pub fn check_reencode<E: Stored>(
    samples: &[E],
    p: PcmSpec,
    t: &[u8],
    room: u64,
) -> Result<(), RefusedAt>
    ensures { let lent = E.samples samples.now in
        result ≡ check_reencode_into p lent t.now room }
{
    check_file(samples, p, t)?;
    refuse(room < t.len() as u64, Refusal::OutputTooShort)
}
