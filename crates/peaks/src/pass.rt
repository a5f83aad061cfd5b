// A pass over what a summary holds, number by number: how long it is, written, or compared with bytes that are held.
ghost use Rattle.std.specs.Prelude.{◌<◌, length};
ghost use Rattle.format.specs.SevenBits.{seven};
ghost use Rattle.format.specs.Peaks.{peak_of, pair_bytes};
ghost use Rattle.peaks.specs.Passes.{Fits, Passes};

use crate::extremes::peak_of;
use seven_bits::{fold, length_of, put, sevens_of, stands};

#[derive(Clone, Copy)]
pub enum Pass {
    Measure,
    Write,
    Compare,
}

// One number, at the place `at`: the place behind it, unless it stops there. Only a comparison stops, where what is
// held is another number, or ends.
#[tactic(auto, using(seven_bits::proofs::Laws::sevens))]
pub fn pass_number(pass: Pass, at: usize, n: u32, out: &mut [u8], held: &[u8]) -> Option<usize>
    requires { Fits pass at (seven n) out.old }
    ensures { Passes pass at (seven n) held.now out.old result out.new }
{
    match pass {
        Pass::Measure => Some(at + length_of(n)),
        Pass::Write => {
            let w = sevens_of(n);
            put(out, at, w);
            Some(at + w.len)
        }
        Pass::Compare => {
            let w = sevens_of(n);
            if stands(held, at, w) {
                Some(at + w.len)
            } else {
                None
            }
        }
    }
}

// The pair of some samples, of which there is at least one.
#[tactic(auto, using(crate::proofs::Pairs::pairs))]
pub fn pass_peak(pass: Pass, at: usize, run: &[i32], out: &mut [u8], held: &[u8]) -> Option<usize>
    requires { (0 < length run.now) × Fits pass at (pair_bytes (peak_of run.now)) out.old }
    ensures { let b = pair_bytes (peak_of run.now) in
        Passes pass at b held.now out.old result out.new }
{
    let peak = peak_of(run);
    let next = pass_number(pass, at, fold(peak.smallest), out, held)?;
    pass_number(pass, next, fold(peak.largest), out, held)
}
