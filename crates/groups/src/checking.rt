// The checks of some groups of an opened file, from their block headers alone.
ghost use Rattle.std.specs.Prelude.{◌≡◌, ◌+◌, ◌≤◌};
ghost use Rattle.format.specs.Header.{fields_of, groups_of, group_bytes};
ghost use Rattle.format.specs.Refusals.{Fine, in_order};
ghost use Rattle.format.specs.Places.{in_group};
ghost use Rattle.format.specs.Opening.{check_open};
ghost use Rattle.format.specs.Decoding.{check_group};

use format::{Fields, RefusedAt, SampleFormat, in_group};

// Each of `count` groups in order, from the group `first` on.
#[tactic(auto, using(laws::proofs::Chain::turns))]
pub fn check_groups(
    file: &[u8],
    h: Fields,
    format: SampleFormat,
    first: u32,
    count: u32,
) -> Result<(), RefusedAt>
    requires { (check_open file.now ≡ Fine) × (h ≡ fields_of file.now) × (first + count ≤ groups_of h.frames) }
    ensures { let file = file.now in
        result ≡ in_order (λ k. in_group (first + k) (check_group h format (group_bytes file h (first + k)))) count }
{
    for k in 0..count {
        let g = first + k;
        let a = opening::offset_of(file, h, g);
        let e = opening::offset_of(file, h, g + 1);
        in_group(g, group::check_group(h, format, &file[a..e]))?;
    }
    Ok(())
}
