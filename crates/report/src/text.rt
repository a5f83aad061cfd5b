// Words and numbers on standard output. A write that fails ends what is printed.
use format::{Named, Place, Refusal, SampleFormat, Told};
use std::io;

// Prints the text as it is.
pub fn print(rt: &impl Print, text: &[u8]) -> io::Result<()> {
    rt.write_all(text)
}

// Prints the number in decimal.
pub fn print_number(rt: &impl Print, n: u64) -> io::Result<()> {
    rt.print(n)
}

// Prints the name of the sample format.
pub fn print_format(rt: &impl Print, format: SampleFormat) -> io::Result<()> {
    match format {
        SampleFormat::Pcm => print!(rt; "pcm"),
        SampleFormat::Float => print!(rt; "float"),
    }
}

// Prints the refusal's number: all that document 01's program prints of it.
pub fn print_refusal(rt: &impl Print, r: Refusal) -> io::Result<()> {
    print!(rt; "refused {}", r.number())
}

// Prints what a refusal tells besides: 4 the bits word that was read, 36 the place of the value or difference in its
// block.
fn print_told(rt: &impl Print, told: Told) -> io::Result<()> {
    match told {
        Told::Nothing => Ok(()),
        Told::Bits(bits) => print!(rt; " {bits}"),
        Told::Misfit(place) => print!(rt; " {place}"),
    }
}

// Prints the place that is named.
fn print_place(rt: &impl Print, named: Named, place: Place) -> io::Result<()> {
    match named {
        Named::NoGroup => Ok(()),
        Named::TheGroup => print!(rt; ", group {}", place.group),
        Named::TheBlock => print!(rt; ", group {}, channel {}", place.group, place.channel),
    }
}

// Prints the refusal's number, what it tells besides, and where it is, of which so much is named.
pub fn print_refused(rt: &impl Print, r: Refusal, named: Named, place: Place) -> io::Result<()> {
    print_refusal(rt, r)?;
    print_told(rt, r.told())?;
    print_place(rt, named, place)
}
