// A pass over a file whose checks have passed: the channels of a group, the groups, and the two numbers before them.
ghost use Rattle.std.specs.Prelude.{◌≡◌, ◌++◌, ◌≤◌, ◌<◌};
ghost use Rattle.format.specs.Refusals.{Fine};
ghost use Rattle.format.specs.SevenBits.{seven};
ghost use Rattle.format.specs.Header.{fields_of, groups_of};
ghost use Rattle.format.specs.Opening.{format_of};
ghost use Rattle.format.specs.Decoding.{check_decode};
ghost use Rattle.format.specs.Peaks.{summary_of};
ghost use Rattle.group.specs.Readable.{Readable};
ghost use Rattle.peaks.specs.Passes.{Fits, Passes, group_pairs, file_pairs};

use crate::pass::{Pass, pass_number, pass_peak};
use format::{Fields, SampleFormat};

// Two channels, of whose frames the first n are active.
#[tactic(auto, using(crate::proofs::Two::twos))]
fn pass_two(
    pass: Pass,
    at: usize,
    bs: &[u8],
    h: Fields,
    format: SampleFormat,
    n: usize,
    out: &mut [u8],
    held: &[u8],
) -> Option<usize>
    requires { (Readable h format bs.now) × (h.channels ≡ 2) × (0 < n) × (n ≤ 512)
        × Fits pass at (group_pairs h format n bs.now) out.old }
    ensures { let b = group_pairs h format n bs.now in
        Passes pass at b held.now out.old result out.new }
{
    let a = group::read_pair(h, format, bs);
    let next = pass_peak(pass, at, &a[0][..n], out, held)?;
    pass_peak(pass, next, &a[1][..n], out, held)
}

// Any other number of channels, one at a time.
#[tactic(auto, using(crate::proofs::Channels::channels))]
fn pass_channels(
    pass: Pass,
    start: usize,
    bs: &[u8],
    h: Fields,
    format: SampleFormat,
    n: usize,
    out: &mut [u8],
    held: &[u8],
) -> Option<usize>
    requires { (Readable h format bs.now) × (h.channels ≡ 2 → ⊥) × (0 < n) × (n ≤ 512)
        × Fits pass start (group_pairs h format n bs.now) out.old }
    ensures { let b = group_pairs h format n bs.now in
        Passes pass start b held.now out.old result out.new }
{
    let mut at = start;
    let mut blocks = bs;
    for _ in 0..h.channels {
        let run = block::read_block(blocks, h.depth);
        at = pass_peak(pass, at, &run[..n], out, held)?;
        blocks = &blocks[block::size_of(blocks, h.depth)..];
    }
    Some(at)
}

// A group.
fn pass_group(
    pass: Pass,
    at: usize,
    bs: &[u8],
    h: Fields,
    format: SampleFormat,
    n: usize,
    out: &mut [u8],
    held: &[u8],
) -> Option<usize>
    requires { (Readable h format bs.now) × (0 < n) × (n ≤ 512)
        × Fits pass at (group_pairs h format n bs.now) out.old }
    ensures { let b = group_pairs h format n bs.now in
        Passes pass at b held.now out.old result out.new }
{
    if h.channels == 2 {
        pass_two(pass, at, bs, h, format, n, out, held)
    } else {
        pass_channels(pass, at, bs, h, format, n, out, held)
    }
}

// Every group in order.
#[tactic(auto, using(crate::proofs::Groups::groups))]
fn pass_groups(
    pass: Pass,
    start: usize,
    file: &[u8],
    h: Fields,
    format: SampleFormat,
    out: &mut [u8],
    held: &[u8],
) -> Option<usize>
    requires { (check_decode file.now ≡ Fine) × (h ≡ fields_of file.now) × (format ≡ format_of file.now h)
        × Fits pass start (file_pairs file.now h format (groups_of h.frames)) out.old }
    ensures { let b = file_pairs file.now h format (groups_of h.frames) in
        Passes pass start b held.now out.old result out.new }
{
    let mut at = start;
    for g in 0..h.frames.groups() {
        let a = opening::offset_of(file, h, g);
        let e = opening::offset_of(file, h, g + 1);
        let n = h.frames.active(g).0 as usize;
        at = pass_group(pass, at, &file[a..e], h, format, n, out, held)?;
    }
    Some(at)
}

// Frames and channels.
#[tactic(auto, using(crate::proofs::Composed::runs))]
fn pass_head(pass: Pass, h: Fields, out: &mut [u8], held: &[u8]) -> Option<usize>
    requires { Fits pass 0 (seven h.frames.0 ++ seven h.channels) out.old }
    ensures { let b = seven h.frames.0 ++ seven h.channels in
        Passes pass 0 b held.now out.old result out.new }
{
    let at = pass_number(pass, 0, h.frames.0, out, held)?;
    pass_number(pass, at, h.channels as u32, out, held)
}

// The whole summary.
#[tactic(auto, using(crate::proofs::Whole::wholes))]
pub fn pass_file(pass: Pass, file: &[u8], out: &mut [u8], held: &[u8]) -> Option<usize>
    requires { (check_decode file.now ≡ Fine) × Fits pass 0 (summary_of file.now) out.old }
    ensures { let b = summary_of file.now in
        Passes pass 0 b held.now out.old result out.new }
{
    let h = header::read_fields(file);
    let format = opening::format_of(file, h);
    let at = pass_head(pass, h, out, held)?;
    pass_groups(pass, at, file, h, format, out, held)
}
