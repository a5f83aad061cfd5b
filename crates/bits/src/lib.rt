// Packed values, least significant bit first: bits.rs of the Rust.
#![tactic(auto)]

ghost use Rattle.std.specs.Prelude.{◌≡◌, ◌+◌, ◌*◌, ◌%◌, ◌^◌, ◌<◌, ◌≤◌, length, pos, slice_index_or};
ghost use Rattle.format.specs.Numbers.{value};
ghost use Rattle.format.specs.Packed.{values};
ghost use Rattle.bits.specs.Place.{WholeRun, Room, Window, Read, ReadTwo};

use format::Depth;
use le_bytes::read_u64_le;

// A place in a packed run: the number of the bit that is read next.
#[derive(Clone, Copy)]
pub struct Cursor {
    bit: usize,
}

// A value, and the cursor after it.
#[derive(Clone, Copy)]
struct Next {
    value: i32,
    cursor: Cursor,
}

// A value and the one after it, and the cursor after both.
#[derive(Clone, Copy)]
pub struct Pair {
    pub first: i32,
    pub second: i32,
    pub cursor: Cursor,
}

// 2 to the power k.
pub fn pow2(k: u32) -> u64
    requires { k < 64 }
    ensures { result ≡ 2 ^ k }
{
    1 << k
}

// The number that the lowest `bits` bits of raw mean: a code below half of 2 ^ bits is itself, any other that less
// 2 ^ bits. By sums, since a branch or a shift to the top and back is slower in the loops over values.
#[tactic(auto, using(crate::proofs::Flat::flat_value))]
pub fn sign_extend(raw: u64, bits: u32) -> i32
    requires { (1 ≤ bits) × (bits ≤ 32) }
    ensures { result ≡ value bits (raw % 2 ^ bits) }
{
    let half = pow2(bits - 1);
    let up = raw.wrapping_add(half) % pow2(bits);
    (up as i64 - half as i64) as i32
}

impl Cursor {
    // The cursor before the first value.
    pub fn start() -> Self
        ensures { result.bit ≡ 0 }
    {
        Self { bit: 0 }
    }

    // The cursor n bits on.
    fn past(self, n: u32) -> Cursor
        requires { self.bit + n < 2 ^ 64 }
        ensures { result.bit ≡ self.bit + n }
    {
        Cursor {
            bit: self.bit + n as usize,
        }
    }

    // The bits from the cursor's place on, lowest first: 57 of them, or as many as there are.
    #[tactic(auto, using(crate::proofs::Steps::shows))]
    fn window(self, run: &[u8]) -> u64
        requires { (8 ≤ length run.now) × (self.bit < length run.now * 8) }
        ensures { Window run.now self.bit result }
    {
        let at = (self.bit / 8).min(run.len() - 8);
        read_u64_le(run, at) >> (self.bit - 8 * at)
    }

    // The value at the cursor's place, and the cursor after it.
    fn next(self, run: &[u8], bits: u32) -> Next
        requires { Room run.now self.bit bits }
        ensures { Read run.now self.bit bits result }
    {
        Next {
            value: sign_extend(self.window(run), bits),
            cursor: self.past(bits),
        }
    }

    // The two values at the cursor's place, and the cursor after them.
    pub fn pair(self, run: &[u8], bits: u32) -> Pair
        requires { Room run.now (self.bit + bits) bits }
        ensures { ReadTwo run.now self.bit bits result }
    {
        if bits <= 28 {
            // one window shows both
            let w = self.window(run);
            return Pair {
                first: sign_extend(w, bits),
                second: sign_extend(w >> bits, bits),
                cursor: self.past(2 * bits),
            };
        }
        let a = self.next(run, bits);
        let b = a.cursor.next(run, bits);
        Pair {
            first: a.value,
            second: b.value,
            cursor: b.cursor,
        }
    }
}

// The 512 values of a packed run, of `bits` bits each.
#[tactic(auto, using(crate::proofs::Run::turn))]
pub fn packed_values(run: &[u8], bits: u32) -> [i32; 512]
    requires { WholeRun run.now bits }
    ensures { result ≡ values bits run.now }
{
    let mut out = [0i32; 512];
    let mut cursor = Cursor::start();
    for i in 0..Depth::SAMPLES_PER_BLOCK / 2 {
        let p = cursor.pair(run, bits);
        out[2 * i] = p.first;
        out[2 * i + 1] = p.second;
        cursor = p.cursor;
    }
    out
}

// The last of them alone: the difference that no sample needs, which re-encoding keeps.
#[tactic(auto, using(crate::proofs::Run::last_value))]
pub fn last_value(run: &[u8], bits: u32) -> i32
    requires { WholeRun run.now bits }
    ensures { result ≡ slice_index_or (values bits run.now) 511 (pos 0) }
{
    let cursor = Cursor {
        bit: 511 * bits as usize,
    };
    cursor.next(run, bits).value
}
