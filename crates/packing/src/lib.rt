// Values packed least significant bit first, and the width that holds them: pack, width and deltas of writer.rs.
#![tactic(auto)]

ghost use Rattle.std.specs.Prelude.{◌≡◌, ℕ, ◌<◌, ◌≤◌, ◌^◌, true, pos, length};
ghost use Rattle.std.specs.Int.Signed.{mag};
ghost use Rattle.format.specs.Lists.{every};
ghost use Rattle.format.specs.Numbers.{code_of, holds};
ghost use Rattle.format.specs.Packed.{packing};
ghost use Rattle.format.specs.Answers.{filled};
ghost use Rattle.format.specs.Fit.{misfit, check_fit};
ghost use Rattle.format.specs.Encoding.{differences, least_width};
ghost use Rattle.bits.specs.Place.{WholeRun, Room};
ghost use Rattle.packing.specs.Place.{Open, CodePut, origin, end};

use bits::pow2;
use format::{Refusal, RefusedAt};
use le_bytes::put_u32_le;

// The twin of the reading cursor: bits that wait to be written, how many, and where the next four bytes go.
#[derive(Clone, Copy)]
struct PutCursor {
    acc: u64,
    have: u32,
    at: usize,
}

impl PutCursor {
    // The cursor before the first code: no bit waits.
    fn start() -> Self
        ensures { result ≡ origin }
    {
        Self {
            acc: 0,
            have: 0,
            at: 0,
        }
    }

    // A code of `bits` bits put after those before, and the cursor after it.
    fn put(self, run: &mut [u8], code: u64, bits: u32) -> PutCursor
        requires { Open run.old self × Room run.old (end self) bits × (code < 2 ^ bits) }
        ensures { CodePut run.old self code bits run.new result }
    {
        let at = self.at;
        let acc = self.acc + (code << self.have);
        let have = self.have + bits;
        if have < 32 {
            return PutCursor { acc, have, at };
        }
        put_u32_le(run, at, (acc % 4294967296) as u32);
        PutCursor {
            acc: acc / 4294967296,
            have: have - 32,
            at: at + 4,
        }
    }
}

// The code of `bits` bits of a value that they hold.
#[tactic(auto, using(crate::proofs::Run::code_word))]
fn code_of(value: i32, bits: u32) -> u64
    requires { (1 ≤ bits) × (bits ≤ 32) × (holds bits value ≡ true) }
    ensures { result ≡ code_of bits value }
{
    sample::bits_of(value) as u64 % pow2(bits)
}

// n for n and for - n - 1: as many bits hold either.
fn folded(x: i32) -> u32
    ensures { result ≡ mag x }
{
    if x < 0 { !x as u32 } else { x as u32 }
}

// The bits of all folded values in one number, which stands for the values: b bits hold them where they hold it. A
// maximum would do as well, by more instructions on x86-64.
// The values are lent, since `check_fit` may ask for them again: given, they would be copied for that.
fn folded_bits(values: &[i32]) -> u32
    requires { length values.now ≡ 512 }
    ensures { (result < 2 ^ 31) × ((b : ℕ) → every (holds b) values.now ≡ holds b (pos result)) }
{
    let mut m: u32 = 0;
    for x in values {
        m |= folded(*x);
    }
    m
}

// The least width from 2 to 32 that holds all values: the sign's bit, and the folded bits from the highest one down.
// Width 1 is left out on purpose, as in the Rust: what Kontakt decoded of it differed on a natural 16-bit probe, width
// 2 brought the exact samples back, and what width 1 means is still unresolved.
pub fn width(values: [i32; 512]) -> u32
    ensures { result ≡ least_width values }
{
    let b = 33 - folded_bits(&values).leading_zeros();
    b.max(2)
}

// The differences that rebuild the values: each is the next value less this one, and 0 stands as the last.
#[tactic(auto, using(crate::proofs::Sweeps::stored_all))]
pub fn deltas(values: [i32; 512]) -> [i32; 512]
    ensures { result ≡ differences values }
{
    let mut out = [0i32; 512];
    for i in 0..511 {
        out[i] = sample::wrapping_sub(values[i + 1], values[i]);
    }
    out
}

// The place of the first value that so many bits do not hold; 512 where they hold all.
#[tactic(auto, using(crate::proofs::Widths::finds))]
fn first_misfit(values: &[i32], bits: u32) -> u16
    requires { (length values.now ≡ 512) × (1 ≤ bits) × (bits ≤ 32) }
    ensures { result ≡ misfit bits values.now }
{
    let p = pow2(bits - 1);
    for (i, x) in values.iter().enumerate() {
        if p <= folded(*x) as u64 {
            return i as u16;
        }
    }
    512
}

// The refusal of values for a width. 36: a value or difference does not fit it; the place of the first such is looked
// for only then.
pub fn check_fit(values: [i32; 512], bits: u32) -> Result<(), RefusedAt>
    requires { (1 ≤ bits) × (bits ≤ 32) }
    ensures { result ≡ check_fit bits values }
{
    if (folded_bits(&values) as u64) < pow2(bits - 1) {
        return Ok(());
    }
    Err(Refusal::WidthTooSmall(first_misfit(&values, bits)).nowhere())
}

// Fills the run with the codes of all values, which the width holds.
#[tactic(auto, using(crate::proofs::Run::codes))]
fn put_all(values: [i32; 512], bits: u32, run: &mut [u8])
    requires { WholeRun run.old bits × (every (holds bits) values ≡ true) }
    ensures { run.new ≡ packing bits values }
{
    let mut cursor = PutCursor::start();
    for x in &values {
        cursor = cursor.put(run, code_of(*x, bits), bits);
    }
}

// Packs 512 values into a run of 64 * bits bytes. 36, with its place: a value or difference does not fit the width, and
// the run stays as it was.
#[tactic(auto, using(crate::proofs::Fits::packs))]
pub fn pack(values: [i32; 512], bits: u32, run: &mut [u8]) -> Result<(), RefusedAt>
    requires { WholeRun run.old bits }
    ensures { let fit = check_fit bits values in
        (result ≡ fit) × (run.new ≡ filled fit (packing bits values) run.old) }
{
    check_fit(values, bits)?;
    put_all(values, bits, run);
    Ok(())
}
