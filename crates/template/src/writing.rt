// The file: the template's bytes, and over them each new group in its own part.
ghost use Rattle.std.specs.Prelude.{◌≡◌, ◌≤◌, length};
ghost use Rattle.std.proofs.lemmas.List.Edits.{sets};
ghost use Rattle.format.specs.Refusals.{Fine};
ghost use Rattle.format.specs.Lists.{over, joined};
ghost use Rattle.format.specs.Header.{fields_of, groups_of, group_bytes};
ghost use Rattle.format.specs.Encoding.{group_in};
ghost use Rattle.format.specs.Reencoding.{reencoded_group, check_reencode, reencoded_file};

use format::{Depth, PcmSpec};
use lent_samples::Stored;

// Each group where the table says.
fn write_groups<E: Stored>(samples: &[E], p: PcmSpec, t: &[u8], out: &mut [u8])
    requires { (check_reencode p (E.samples samples.now) t.now ≡ Fine)
        × (length t.now ≤ length out.old) }
    ensures { let lent = E.samples samples.now in
        let file = t.now in
        let h = fields_of file in
        let groups = joined
        (λ g. reencoded_group h.depth h.channels (group_bytes file h g) (group_in h.channels lent g))
        (groups_of h.frames) in
        out.new ≡ sets out.old h.start groups }
{
    let h = header::read_fields(t);
    let start = h.start as usize;
    let frames = h.frames;
    let groups = frames.groups();
    for g in 0..groups {
        let a = start + header::entry_at(t, h, g) as usize;
        let e = start + header::entry_at(t, h, g + 1) as usize;
        let n = frames.active(g).0 as usize;
        reencode_group::reencode_group(
            &mut out[a..],
            samples,
            Depth::SAMPLES_PER_BLOCK * g as usize,
            n,
            p,
            &t[a..e],
        );
    }
}

// The whole new file, at the front of what is lent.
pub fn write_file<E: Stored>(samples: &[E], p: PcmSpec, t: &[u8], out: &mut [u8])
    requires { (check_reencode p (E.samples samples.now) t.now ≡ Fine)
        × (length t.now ≤ length out.old) }
    ensures { let lent = E.samples samples.now in
        out.new ≡ over (reencoded_file lent t.now) out.old }
{
    le_bytes::copy(out, t);
    write_groups(samples, p, t, out);
}
