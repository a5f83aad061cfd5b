// Mid and side of one frame: reading takes left and right from them, writing makes them of left and right.
// In float files a sample is a pattern: it is read as an f32, summed, and the sum written back as its pattern. A NaN is
// never summed, since machines differ in what they make of it: its own bits go on.
ghost use Rattle.std.specs.Prelude.{◌≡◌, true, ◌/◌, pos};
ghost use Rattle.std.specs.Float.{binary32};
ghost use Rattle.std.specs.Float.Ieee.{nan_bits};
ghost use Rattle.format.specs.MidSide.{pattern_of, quieted, left, right};
ghost use Rattle.format.specs.Encoding.{mid, side, equal_parity};
ghost use Rattle.stereo.specs.Patterns.{lost_by, float_sum, float_difference};
ghost use Rattle.sample.specs.Raised.{raised};

use format::SampleFormat;
use sample::{bits_of, of_bits, wrapping_add, wrapping_sub};

// Whether x is the pattern of a NaN: with the sign's bit off it is above the infinity's.
fn is_nan(x: u32) -> bool
    ensures { result ≡ nan_bits binary32 x }
{
    x % 0x8000_0000 > 0x7F80_0000
}

// The one of mid and side that a frame is lost by, if it is a NaN: mid if that is one, otherwise side.
fn lost_by(mid: u32, side: u32) -> u32
    ensures { result ≡ lost_by mid side }
{
    if is_nan(mid) { mid } else { side }
}

// A NaN's bits as they go on: quiet.
fn quieted(x: u32) -> u32
    ensures { result ≡ quieted x }
{
    x | 0x0040_0000
}

// The pattern of a sum or a difference of numbers: 0x7FC00000 for a NaN.
fn pattern_of(x: f32) -> u32
    ensures { result ≡ pattern_of x }
{
    if x != x { 0x7FC0_0000 } else { f32::to_bits(x) }
}

// The pattern of mid + side, of the floats with these patterns; where one is a NaN, its bits.
fn float_sum(mid: u32, side: u32) -> u32
    ensures { result ≡ float_sum mid side }
{
    let x = lost_by(mid, side);
    if is_nan(x) {
        quieted(x)
    } else {
        pattern_of(f32::from_bits(mid) + f32::from_bits(side))
    }
}

// The pattern of mid - side, likewise.
fn float_difference(mid: u32, side: u32) -> u32
    ensures { result ≡ float_difference mid side }
{
    let x = lost_by(mid, side);
    if is_nan(x) {
        quieted(x)
    } else {
        pattern_of(f32::from_bits(mid) - f32::from_bits(side))
    }
}

// Left of mid and side: their sum, which wraps in PCM files and is rounded once in float files.
pub fn left(format: SampleFormat, mid: i32, side: i32) -> i32
    ensures { result ≡ left format mid side }
{
    match format {
        SampleFormat::Pcm => wrapping_add(mid, side),
        SampleFormat::Float => of_bits(float_sum(bits_of(mid), bits_of(side))),
    }
}

// Right of mid and side: their difference, which wraps in PCM files and is rounded once in float files.
pub fn right(format: SampleFormat, mid: i32, side: i32) -> i32
    ensures { result ≡ right format mid side }
{
    match format {
        SampleFormat::Pcm => wrapping_sub(mid, side),
        SampleFormat::Float => of_bits(float_difference(bits_of(mid), bits_of(side))),
    }
}

// Whether both are even or both are odd.
pub fn equal_parity(l: i32, r: i32) -> bool
    ensures { result ≡ equal_parity l r }
{
    bits_of(l) % 2 == bits_of(r) % 2
}

// Half of x, rounded down, and 2^30 more.
fn half_up(x: i32) -> i32
    ensures { result ≡ pos (raised x / 2) }
{
    ((x as i64 + 0x8000_0000) as u32 / 2) as i32
}

// Half of the exact difference of left and right.
pub fn side(l: i32, r: i32) -> i32
    requires { equal_parity l r ≡ true }
    ensures { result ≡ side l r }
{
    half_up(l) - half_up(r)
}

// Half of the exact sum of left and right: left less side.
pub fn mid(l: i32, r: i32) -> i32
    requires { equal_parity l r ≡ true }
    ensures { result ≡ mid l r }
{
    l - side(l, r)
}
