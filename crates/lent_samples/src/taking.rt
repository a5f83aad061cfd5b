// Samples taken from what is lent: whether they are in range, and channels apart, padded to 512.
ghost use Rattle.std.specs.Prelude.{◌≡◌, ◌&&◌, [], ◌∷◌, ◌<◌, ◌≤◌, get_or, take};
ghost use Rattle.std.specs.Int.Signed.{le_z};
ghost use Rattle.format.specs.Lists.{every};
ghost use Rattle.format.specs.Units.{within};
ghost use Rattle.format.specs.Encoding.{channel, padded, padded_channels};
ghost use Rattle.lent_samples.specs.Lent.{frames_from, GroupFits};

use crate::{Stored, place};
use format::Depth;

fn inside(x: i32, lowest: i32, highest: i32) -> bool
    ensures { result ≡ (le_z lowest x && le_z x highest) }
{
    if x < lowest {
        return false;
    }
    x <= highest
}

// Whether every sample lies in the depth's own range.
pub fn all_within<E: Stored>(lent: &[E], depth: Depth) -> bool
    ensures { result ≡ every (within depth) (E.samples lent.now) }
{
    let lowest = depth.lowest();
    let highest = depth.highest();
    let mut ok = true;
    for i in 0..E::count(lent).0 as usize {
        let o = inside(E::sample_at(lent, i), lowest, highest);
        ok = ok & o;
    }
    ok
}

// Channel c of the n frames from `first` on; what follows is not yet padded.
fn take_channel<E: Stored>(
    lent: &[E],
    first: usize,
    n: usize,
    channels: usize,
    c: usize,
) -> [i32; 512]
    requires { (c < channels) × GroupFits channels first n (E.samples lent.now) }
    ensures { take n result ≡ channel channels (frames_from channels first n (E.samples lent.now)) c }
{
    let mut run = [0i32; 512];
    for k in 0..n {
        run[k] = E::sample_at(lent, place(first + k, channels, c));
    }
    run
}

// The first n padded to 512 by their last.
fn pad(run: [i32; 512], n: usize) -> [i32; 512]
    requires { (0 < n) × (n ≤ 512) }
    ensures { result ≡ padded (take n run) }
{
    let mut out = run;
    let last = run[n - 1];
    for k in n..Depth::SAMPLES_PER_BLOCK {
        out[k] = last;
    }
    out
}

// Both channels of the scratch, padded.
fn pad_both(a: [[i32; 512]; 2], n: usize) -> [[i32; 512]; 2]
    requires { (0 < n) × (n ≤ 512) }
    ensures { result ≡ padded (take n (get_or a 0 [])) ∷ padded (take n (get_or a 1 [])) ∷ [] }
{
    let l = pad(a[0], n);
    let r = pad(a[1], n);
    [l, r]
}

// Channel c of the n frames from `first` on, padded to a block's 512 by its last sample.
pub fn channel<E: Stored>(
    lent: &[E],
    first: usize,
    n: usize,
    channels: usize,
    c: usize,
) -> [i32; 512]
    requires { (c < channels) × GroupFits channels first n (E.samples lent.now) }
    ensures { result ≡ padded (channel channels (frames_from channels first n (E.samples lent.now)) c) }
{
    pad(take_channel(lent, first, n, channels, c), n)
}

// The two channels of the n frames from `first` on, each padded so.
pub fn split<E: Stored>(lent: &[E], first: usize, n: usize) -> [[i32; 512]; 2]
    requires { GroupFits 2 first n (E.samples lent.now) }
    ensures { result ≡ padded_channels 2 (frames_from 2 first n (E.samples lent.now)) }
{
    let l = take_channel(lent, first, n, 2, 0);
    let r = take_channel(lent, first, n, 2, 1);
    pad_both([l, r], n)
}
