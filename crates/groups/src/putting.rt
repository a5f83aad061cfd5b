// Frames of an opened file, put into what is lent: group by group, each that they touch once.
ghost use Rattle.std.specs.Prelude.{◌≡◌, ◌-◌, ◌*◌, ◌%◌, ◌≤◌, min, length};
ghost use Rattle.format.specs.Refusals.{Fine};
ghost use Rattle.format.specs.Lists.{over};
ghost use Rattle.format.specs.Header.{fields_of};
ghost use Rattle.format.specs.Opening.{format_of};
ghost use Rattle.format.specs.FewFrames.{check_frames, frames_at};

use format::{Depth, Fields, Frames, SampleFormat};
use lent_samples::{Part, Stored};

// Where `done` frames are put and `left` are not, and the next is the file's frame `at`: that one and the others of its
// group, up to the group's end or the last that is left.
fn part_at(at: u32, done: u32, left: u32) -> Part
    ensures { (result.first ≡ done) × (result.skip ≡ at % 512) × (result.count ≡ min (512 - at % 512) left) }
{
    let first = done as usize;
    let skip = at as usize % Depth::SAMPLES_PER_BLOCK;
    let rest = Depth::SAMPLES_PER_BLOCK - skip;
    let count = left as usize;
    if rest < count {
        return Part {
            first,
            skip,
            count: rest,
        };
    }
    Part { first, skip, count }
}

// Puts `count` frames from the frame `first` on at the front of what is lent. The groups that they touch have passed
// their checks.
pub fn put_frames<E: Stored>(
    lent: &mut [E],
    file: &[u8],
    h: Fields,
    format: SampleFormat,
    first: Frames,
    count: Frames,
)
    requires { (check_frames file.now first count ≡ Fine) × (h ≡ fields_of file.now)
        × (format ≡ format_of file.now h)
        × (count.0 * h.channels ≤ length (E.samples lent.old)) }
    ensures puts { E.samples lent.new ≡ over (frames_at file.now first count) (E.samples lent.old) }
    ensures keeps { E.rest lent.new ≡ E.rest lent.old }
{
    let from = first.0;
    let all = count.0;
    let mut done: u32 = 0;
    // A `while`, since it steps by the part's length.
    while done < all {
        let at = from + done;
        let g = at / Depth::SAMPLES_PER_BLOCK as u32;
        let a = opening::offset_of(file, h, g);
        let e = opening::offset_of(file, h, g + 1);
        let part = part_at(at, done, all - done);
        group::put_group(lent, &file[a..e], h, format, part);
        done += part.count as u32;
    }
}
