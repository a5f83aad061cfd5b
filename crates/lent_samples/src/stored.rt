// What lent samples are stored as: numbers, or bytes, four to a sample.
ghost use Rattle.std.specs.Prelude.{◌≡◌, ◌<◌, ◌≤◌, ℤ, List, [], length, get_or, set, pos};
ghost use native.Mathlib.Nat.{le_refl};
ghost use Rattle.format.specs.Boundary.{samples_from};
ghost use Rattle.lent_samples.specs.Lent.{bytes_behind, bytes_at_most};

use format::Samples;
use le_bytes::{put_u32_le, read_u32_le};

pub trait Stored {
    // The samples that are lent.
    ghost samples: { List Self → List ℤ };

    // What is lent behind the last whole sample.
    ghost rest: { List Self → List Self };

    // How many samples are lent.
    fn count(lent: &[Self]) -> Samples
        ensures { result.0 ≡ length (samples lent.now) };

    // The sample at place i.
    fn sample_at(lent: &[Self], i: usize) -> i32
        requires { i < length (samples lent.now) }
        ensures { result ≡ get_or (samples lent.now) i (pos 0) };

    // Stores a sample at place i.
    fn put_sample(lent: &mut [Self], i: usize, v: i32)
        requires { i < length (samples lent.old) }
        ensures puts { samples lent.new ≡ set (samples lent.old) i v }
        ensures keeps { rest lent.new ≡ rest lent.old };

    // They are no more than the elements, so their places are numbers of 64 bits.
    ghost at_most: { (s : List Self) → length (samples s) ≤ length s };
}

impl Stored for i32 {
    ghost samples = { λ s. s };

    ghost rest = { λ s. [] };

    ghost at_most = { λ s. le_refl (length s) };

    fn count(lent: &[i32]) -> Samples {
        Samples(lent.len() as u64)
    }

    fn sample_at(lent: &[i32], i: usize) -> i32 {
        lent[i]
    }

    fn put_sample(lent: &mut [i32], i: usize, v: i32) {
        lent[i] = v;
    }
}

impl Stored for u8 {
    ghost samples = { samples_from };

    ghost rest = { bytes_behind };

    ghost at_most = { bytes_at_most };

    fn count(lent: &[u8]) -> Samples {
        Samples(lent.len() as u64 / 4)
    }

    fn sample_at(lent: &[u8], i: usize) -> i32 {
        sample::of_bits(read_u32_le(lent, i * 4))
    }

    fn put_sample(lent: &mut [u8], i: usize, v: i32) {
        put_u32_le(lent, i * 4, sample::bits_of(v));
    }
}
