// A number as bytes: by value, put into what is lent, and compared with what stands there.
ghost use Rattle.std.specs.Prelude.{◌≡◌, ◌+◌, ◌≤◌, ◌<◌, ◌^◌, length};
ghost use Rattle.std.proofs.lemmas.List.Edits.{sets};
ghost use Rattle.format.specs.Lists.{from, same};
ghost use Rattle.format.specs.SevenBits.{seven};
ghost use Rattle.seven_bits.specs.Bytes.{sevens_of, bytes_of, Short};

// A number in its groups: the first `len` of the bytes.
#[derive(Clone, Copy)]
pub struct Sevens {
    pub bytes: [u8; 5],
    pub len: usize,
}

// How many bytes n takes.
#[tactic(auto, using(crate::proofs::Laws::lengths))]
pub fn length_of(n: u32) -> usize
    ensures { result ≡ length (seven n) }
{
    match n {
        0..0x80 => 1,
        0x80..0x4000 => 2,
        0x4000..0x20_0000 => 3,
        0x20_0000..0x1000_0000 => 4,
        _ => 5,
    }
}

// n in its groups; the bytes behind them are 0.
#[tactic(auto, using(crate::proofs::Turns::groups), unfolding(format::specs::SevenBits::seven))]
pub fn sevens_of(n: u32) -> Sevens
    ensures { result ≡ sevens_of n }
{
    let mut bytes = [0u8; 5];
    let mut rest = n;
    let mut k: usize = 0;
    // How many groups there are shows only where what is left is the last of them.
    while 128 <= rest {
        bytes[k] = (128 + rest % 128) as u8;
        rest /= 128;
        k += 1;
    }
    bytes[k] = rest as u8;
    Sevens { bytes, len: k + 1 }
}

// Puts it into the bytes from `at` on; the others stay.
#[tactic(auto, using(crate::proofs::Turns::put_groups))]
pub fn put(out: &mut [u8], at: usize, w: Sevens)
    requires { (Short w) × (at + length (bytes_of w) ≤ length out.old) }
    ensures { out.new ≡ sets out.old at (bytes_of w) }
{
    out[at..at + w.len].copy_from_slice(&w.bytes[..w.len]);
}

// Whether it is what stands in the bytes from `at` on.
#[tactic(auto, using(crate::proofs::Turns::stands))]
pub fn stands(s: &[u8], at: usize, w: Sevens) -> bool
    requires { (Short w) × (at + length (bytes_of w) < 2 ^ 64) }
    ensures { result ≡ same (bytes_of w) (from at (length (bytes_of w)) s.now) }
{
    let groups = &w.bytes[..w.len];
    at + w.len <= s.len() && groups == &s[at..at + w.len]
}
