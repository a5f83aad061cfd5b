// What opening answered.
use crate::text::{print, print_format, print_refused};
use format::{Answer, Header, Named, Outcome, Place};
use std::io;

fn print_named(rt: &impl Print, name: &str, n: u64, between: &[u8]) -> io::Result<()> {
    print!(rt; "{name} {n}")?;
    print(rt, between)
}

fn print_header(rt: &impl Print, h: Header, between: &[u8]) -> io::Result<()> {
    print_named(rt, "channels", h.channels as u64, between)?;
    print_named(rt, "bits", h.depth.bits() as u64, between)?;
    print_named(rt, "rate", h.rate as u64, between)?;
    print_named(rt, "frames", h.frames.0 as u64, between)?;
    print_named(rt, "groups", h.groups as u64, between)?;
    print!(rt; "format ")?;
    print_format(rt, h.format)
}

// Prints the header's numbers, with `between` between them, or the refusal and its place; then the end of the line.
pub fn print_opened(rt: &impl Print, answer: Answer, between: &[u8]) -> io::Result<()> {
    match answer.outcome {
        Outcome::Opened(h) => print_header(rt, h, between)?,
        Outcome::Refused(r) => {
            let place = Place {
                group: answer.group,
                channel: answer.channel,
            };
            print_refused(rt, r, Named::outside(r.number()), place)?;
        }
        _ => print(rt, b"no answer")?,
    }
    print(rt, b"\n")
}
