// The job, and its report line by line. The first refusal is the last line.
ghost use Rattle.std.specs.Prelude.{◌≡◌, replicate, pos};

use crate::MOST_BYTES;
use crate::text::print_done;
use format::{Header, Outcome};
use remaster_job::{Kept, ReadBack, Report, Restored, Rewritten};
use report::print_opened;
use std::io;

// The most samples that are taken.
const MOST_SAMPLES: usize = 131072;

// Room for so many.
fn room() -> [i32; MOST_SAMPLES]
    ensures { result ≡ replicate 131072 (pos 0) }
{
    [0; MOST_SAMPLES]
}

// This and the next say whether there was no refusal.
fn print_restored(rt: &impl Print, restored: Restored) -> io::Result<bool> {
    if !print_done(rt, restored.answer)? {
        return Ok(false);
    }
    let what = if restored.is_itself {
        "the file itself"
    } else {
        "another file"
    };
    println!(rt; ", {what}")?;
    Ok(true)
}

fn print_rewritten(rt: &impl Print, rewritten: Rewritten) -> io::Result<bool> {
    print!(rt; "re-encode with its own samples: ")?;
    if !print_restored(rt, rewritten.restored)? {
        return Ok(false);
    }
    print!(rt; "re-encode with every sample halved, parity kept: ")?;
    print_done(rt, rewritten.written)
}

// What of the file is the same in what was written with the halved samples.
fn print_kept(rt: &impl Print, kept: Kept) -> io::Result<()> {
    println!(rt; ", {} as before", kept.all)?;
    print!(rt; "kept: {} bytes before the data, ", kept.before)?;
    print!(rt;
        "{} block headers but for the base of differences, ",
        kept.headers
    )?;
    println!(rt; "{} bytes behind the data", kept.behind)
}

// What is found in what was written.
fn print_back(rt: &impl Print, back: ReadBack) -> io::Result<()> {
    print!(rt; "open what was written: ")?;
    print_opened(rt, back.opened, b", ")?;
    print!(rt; "decode what was written: ")?;
    if !print_done(rt, back.decoded)? {
        return Ok(());
    }
    println!(rt; ", {} the halved ones", back.halves)?;
    print!(rt; "re-encode what was written with the file's own samples: ")?;
    print_restored(rt, back.restored)?;
    Ok(())
}

fn print_report(rt: &impl Print, report: Report) -> io::Result<()> {
    print!(rt; "decode: ")?;
    if !print_done(rt, report.decoded)? {
        return Ok(());
    }
    println!(rt)?;
    if !print_rewritten(rt, report.rewritten)? {
        return Ok(());
    }
    print_kept(rt, report.rewritten.kept)?;
    print_back(rt, report.back)
}

// The job on a file that opens, with as much room as its samples ask for.
fn run_opened(rt: &impl Print, file: &[u8], h: Header, out: &mut [u8]) -> io::Result<()> {
    let n = h.frames.samples(h.channels).0 as usize;
    if MOST_SAMPLES < n {
        return println!(rt; "too large");
    }
    let mut old = room();
    let mut new = room();
    let mut read = room();
    let mut again = [0; MOST_BYTES];
    let report = remaster_job::job(
        file,
        h,
        &mut old[..n],
        &mut new[..n],
        out,
        &mut read,
        &mut again,
    );
    print_report(rt, report)
}

// Does the job on a file and prints its report.
pub fn run(rt: &impl Print, file: &[u8]) -> io::Result<()> {
    let mut out = [0; MOST_BYTES];
    let n = file.len();
    if MOST_BYTES < n {
        return println!(rt; "too large");
    }
    print!(rt; "open: ")?;
    let answer = opening::open(file);
    print_opened(rt, answer, b", ")?;
    if let Outcome::Opened(h) = answer.outcome {
        run_opened(rt, file, h, &mut out[..n])?;
    }
    Ok(())
}
