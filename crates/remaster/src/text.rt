// The lines: what decoding and re-encoding answered.
use format::{Answer, Named, Outcome, Place};
use std::io;

// Prints how much was read or written, without the end of the line, or a refusal, of a file that opens; and says
// whether it was no refusal.
pub fn print_done(rt: &impl Print, answer: Answer) -> io::Result<bool> {
    match answer.outcome {
        Outcome::Read(samples) => print!(rt; "{} samples", samples.0)?,
        Outcome::Wrote(n) => print!(rt; "{n} bytes")?,
        Outcome::Refused(r) => {
            let place = Place {
                group: answer.group,
                channel: answer.channel,
            };
            report::print_refused(rt, r, Named::inside(r.number()), place)?;
            println!(rt)?;
            return Ok(false);
        }
        _ => {
            println!(rt; "no answer")?;
            return Ok(false);
        }
    }
    Ok(true)
}
