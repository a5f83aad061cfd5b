// Samples that the caller lends, as numbers or as bytes, four to a sample: each function takes either, by `Stored`.
#![tactic(auto)]

mod stored;
mod taking;

ghost use Rattle.std.specs.Prelude.{◌≡◌, ◌+◌, ◌*◌, ◌^◌, ◌<◌};
ghost use Rattle.lent_samples.specs.Lent.{PartFits, channel_put, frames_put};

pub use stored::Stored;
pub use taking::{all_within, channel, split};

// Frames of a group and where they lie: `count` of them, from the group's frame `skip` on, at frame `first` of what is
// lent.
#[derive(Clone, Copy)]
pub struct Part {
    pub first: usize,
    pub skip: usize,
    pub count: usize,
}

// Frames become sample indexes here: where channel c of a frame lies.
fn place(frame: usize, channels: usize, c: usize) -> usize
    requires { frame * channels + c < 2 ^ 64 }
    ensures { result ≡ frame * channels + c }
{
    frame * channels + c
}

fn put_strided<E: Stored>(lent: &mut [E], part: Part, channels: usize, c: usize, run: [i32; 512])
    requires { (c < channels) × PartFits part channels (E.samples lent.old) }
    ensures puts { E.samples lent.new ≡ channel_put part channels c run (E.samples lent.old) }
    ensures keeps { E.rest lent.new ≡ E.rest lent.old }
{
    for k in 0..part.count {
        E::put_sample(lent, place(part.first + k, channels, c), run[part.skip + k]);
    }
}

// Puts the part of channel c, which is a run of 512, where it lies. Where there is one channel its samples lie side by
// side, and many are stored at once.
pub fn put_channel<E: Stored>(
    lent: &mut [E],
    part: Part,
    channels: usize,
    c: usize,
    run: [i32; 512],
)
    requires { (c < channels) × PartFits part channels (E.samples lent.old) }
    ensures puts { E.samples lent.new ≡ channel_put part channels c run (E.samples lent.old) }
    ensures keeps { E.rest lent.new ≡ E.rest lent.old }
{
    if channels == 1 {
        put_strided(lent, part, 1, 0, run);
    } else {
        put_strided(lent, part, channels, c, run);
    }
}

// Puts the part of two channels, interleaved, where its frames lie.
pub fn interleave<E: Stored>(lent: &mut [E], part: Part, a: [[i32; 512]; 2])
    requires { PartFits part 2 (E.samples lent.old) }
    ensures puts { E.samples lent.new ≡ frames_put part 2 a (E.samples lent.old) }
    ensures keeps { E.rest lent.new ≡ E.rest lent.old }
{
    for k in 0..part.count {
        let at = part.first + k;
        let i = part.skip + k;
        E::put_sample(lent, place(at, 2, 0), a[0][i]);
        E::put_sample(lent, place(at, 2, 1), a[1][i]);
    }
}
