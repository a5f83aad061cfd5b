// Every refusal of a step, found from the header, the table and the group's block headers.
ghost use Rattle.std.specs.Prelude.{◌≡◌};
ghost use Rattle.format.specs.Walking.{check_walk};

use format::{Refusal, RefusedAt, Samples, in_group, refuse};

// At group g, into so much room.
#[tactic(auto, using(crate::proofs::Ways::walks))]
pub fn check_walk(file: &[u8], g: u32, room: Samples) -> Result<(), RefusedAt>
    ensures { result ≡ check_walk file.now g room.0 }
{
    opening::check_open(file)?;
    let h = header::read_fields(file);
    if h.frames.groups() <= g {
        return Ok(());
    }
    let format = opening::format_of(file, h);
    let a = opening::offset_of(file, h, g);
    let e = opening::offset_of(file, h, g + 1);
    in_group(g, group::check_group(h, format, &file[a..e]))?;
    refuse(
        room.0 < h.frames.active(g).samples(h.channels).0,
        Refusal::OutputTooShort,
    )
}
