// Mid/side of two channels, both ways: undone in reading (decode_mid_side of block.rs), made in writing (transform of
// writer.rs) where every frame has equal parity.
#![tactic(auto)]

mod frame;

ghost use Rattle.std.specs.Prelude.{◌≡◌, true};
ghost use Rattle.format.specs.MidSide.{left_right};
ghost use Rattle.format.specs.Encoding.{mid_side, parity, unwoven};
ghost use Rattle.lent_samples.specs.Lent.{frames_from, GroupFits};

use format::{Depth, SampleFormat};
use lent_samples::Stored;

// Two channels of mid and side as left and right: left = mid + side, right = mid - side, in PCM and in float files.
pub fn left_right(format: SampleFormat, a: [[i32; 512]; 2]) -> [[i32; 512]; 2]
    ensures { result ≡ left_right format a }
{
    let mut d = a;
    for i in 0..Depth::SAMPLES_PER_BLOCK {
        let m = d[0][i];
        let s = d[1][i];
        d[0][i] = frame::left(format, m, s);
        d[1][i] = frame::right(format, m, s);
    }
    d
}

// Two channels of left and right as mid and side: mid = (l + r) / 2, side = (l - r) / 2, which are exact where each
// frame has equal parity.
pub fn mid_side(a: [[i32; 512]; 2]) -> [[i32; 512]; 2]
    requires { parity a ≡ true }
    ensures { result ≡ mid_side a }
{
    let mut m = a;
    for i in 0..Depth::SAMPLES_PER_BLOCK {
        let l = m[0][i];
        let r = m[1][i];
        m[0][i] = frame::mid(l, r);
        m[1][i] = frame::side(l, r);
    }
    m
}

// Whether every frame has equal parity: mid and side would have to be rounded in any other.
pub fn parity(a: [[i32; 512]; 2]) -> bool
    ensures { result ≡ parity a }
{
    let mut even = true;
    for i in 0..Depth::SAMPLES_PER_BLOCK {
        let e = frame::equal_parity(a[0][i], a[1][i]);
        even = even & e;
    }
    even
}

// The same of the n frames from `first` on: padded frames never change it.
pub fn frames_parity<E: Stored>(lent: &[E], first: usize, n: usize) -> bool
    requires { GroupFits 2 first n (E.samples lent.now) }
    ensures { result ≡ parity (unwoven 2 (frames_from 2 first n (E.samples lent.now))) }
{
    parity(lent_samples::split(lent, first, n))
}
