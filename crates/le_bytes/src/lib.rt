// Little-endian numbers in lent bytes, read and put, and whole runs put: read_bytes.rs of the Rust, and its
// `to_le_bytes`.
#![tactic(auto)]

ghost use Rattle.std.specs.Prelude.{◌≡◌, ◌+◌, ◌≤◌, length};
ghost use Rattle.std.proofs.lemmas.List.Edits.{sets};
ghost use Rattle.format.specs.Lists.{over};
ghost use Rattle.format.specs.Numbers.{num_at, le};

// The number that the two bytes from `at` on are.
#[tactic(auto, using(laws::proofs::Reading::number_2))]
pub fn read_u16_le(s: &[u8], at: usize) -> u16
    requires { at + 2 ≤ length s.now }
    ensures { result ≡ num_at at 2 s.now }
{
    u16::from_le_bytes([s[at], s[at + 1]])
}

// The number that the four bytes from `at` on are.
#[tactic(auto, using(laws::proofs::Reading::number_4))]
pub fn read_u32_le(s: &[u8], at: usize) -> u32
    requires { at + 4 ≤ length s.now }
    ensures { result ≡ num_at at 4 s.now }
{
    u32::from_le_bytes([s[at], s[at + 1], s[at + 2], s[at + 3]])
}

// The number that the eight bytes from `at` on are.
#[tactic(auto, using(crate::proofs::Laws::number_of_8))]
pub fn read_u64_le(s: &[u8], at: usize) -> u64
    requires { at + 8 ≤ length s.now }
    ensures { result ≡ num_at at 8 s.now }
{
    u64::from_le_bytes([
        s[at],
        s[at + 1],
        s[at + 2],
        s[at + 3],
        s[at + 4],
        s[at + 5],
        s[at + 6],
        s[at + 7],
    ])
}

// Puts n into the two bytes from `at` on; the others stay.
#[tactic(auto, using(crate::proofs::Laws::put_two))]
pub fn put_u16_le(s: &mut [u8], at: usize, n: u16)
    requires { at + 2 ≤ length s.old }
    ensures { s.new ≡ sets s.old at (le 2 n) }
{
    s[at..at + 2].copy_from_slice(&n.to_le_bytes());
}

// Puts n into the four bytes from `at` on; the others stay.
#[tactic(auto, using(crate::proofs::Laws::put_four))]
pub fn put_u32_le(s: &mut [u8], at: usize, n: u32)
    requires { at + 4 ≤ length s.old }
    ensures { s.new ≡ sets s.old at (le 4 n) }
{
    s[at..at + 4].copy_from_slice(&n.to_le_bytes());
}

// Puts a run at the front of what is lent; what lies after it stays.
#[tactic(auto, unfolding(format::specs::Lists::over))]
pub fn copy(s: &mut [u8], run: &[u8])
    requires { length run.now ≤ length s.old }
    ensures { s.new ≡ over run.now s.old }
{
    s[..run.len()].copy_from_slice(run);
}
