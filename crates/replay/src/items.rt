// What the list puts into the two spaces, and where it stands.
ghost use Rattle.std.specs.Prelude.{◌≡◌, take, replicate, pos};
ghost use Rattle.replay.specs.Places.{start_of};
ghost use Rattle.replay.specs.Spaces.{kept};

use replay_list::{Kind, MOST_SAMPLES, SPACE, read_drawn, read_u16, read_u32};
use std::io;
use std::io::Read;

// How many items were read. How many bytes of their spaces the file and the samples are, and how many were read or
// built, and written, last; the settings; whether the next answer is false on purpose, and where its room is changed on
// purpose.
#[derive(Clone, Copy)]
pub struct Place {
    pub items: u64,
    pub file: usize,
    pub samples: usize,
    pub read: usize,
    pub written: usize,
    pub channels: u16,
    pub depth: u16,
    pub rate: u32,
    pub is_false: bool,
    pub spoiled: usize,
}

// Nothing is changed on purpose: no room reaches so far.
pub const NOWHERE: usize = 65536;

// Before the first item.
pub fn start() -> Place
    ensures { result ≡ start_of }
{
    Place {
        items: 0,
        file: 0,
        samples: 0,
        read: 0,
        written: 0,
        channels: 0,
        depth: 0,
        rate: 0,
        is_false: false,
        spoiled: NOWHERE,
    }
}

// The two spaces, which hold the file and the samples; and the room that a question is lent: for samples, for the bytes
// that are read or built, and for those that are written.
#[derive(Drop)]
pub struct Spaces {
    pub file: [u8; SPACE],
    pub samples: [u8; SPACE],
    pub words: [i32; MOST_SAMPLES],
    pub read: [u8; SPACE],
    pub written: [u8; SPACE],
}

// The first n bytes of the space, or all where there are fewer.
pub fn part(space: &[u8], n: usize) -> &[u8]
    ensures { result.now ≡ take n space.now }
{
    &space[..n.min(space.len())]
}

// Puts bytes into the space: where to, how many and which the list says.
fn put<R: Read>(list: &mut R, space: &mut [u8]) -> io::Result<()> {
    let at = read_u16(list)? as usize;
    let n = read_u16(list)? as usize;
    replay_list::put(list, space, at, n)
}

// Puts drawn numbers into the space: where to, how many and how they are drawn the list says.
fn draw<R: Read>(list: &mut R, space: &mut [u8]) -> io::Result<()> {
    let at = read_u16(list)? as usize;
    let n = read_u16(list)? as usize;
    let drawn = read_drawn(list)?;
    replay_list::draw(space, at, n, drawn);
    Ok(())
}

// Keeps the first n bytes of the room at the start of the space.
#[tactic(auto, unfolding(crate::specs::Spaces::kept))]
fn keep(space: &mut [u8], room: &[u8], n: usize)
    ensures { space.new ≡ kept space.old room.now n }
{
    let run = part(room, n);
    if run.len() <= space.len() {
        le_bytes::copy(space, run);
    }
}

// Where the list stands after an item that is no question.
fn place_after<R: Read>(list: &mut R, kind: Kind, place: Place) -> io::Result<Place> {
    let mut after = Place {
        items: place.items.wrapping_add(1),
        ..place
    };
    match kind {
        Kind::FileLength => after.file = read_u16(list)? as usize,
        Kind::SamplesLength => after.samples = read_u16(list)? as usize,
        Kind::KeepWritten => after.file = place.written,
        Kind::KeepRead => after.samples = place.read,
        Kind::Settings => {
            after.channels = read_u16(list)?;
            after.depth = read_u16(list)?;
            after.rate = read_u32(list)?;
        }
        Kind::FalseAnswer => after.is_false = true,
        Kind::SpoiledRoom => {
            after.is_false = true;
            after.spoiled = read_u16(list)? as usize;
        }
        _ => {}
    }
    Ok(after)
}

impl Spaces {
    // Before the first item: zeros.
    pub fn new() -> Spaces
        ensures bytes { (result.file ≡ replicate 16384 0) × (result.samples ≡ replicate 16384 0)
            × (result.read ≡ replicate 16384 0) × (result.written ≡ replicate 16384 0) }
        ensures words { result.words ≡ replicate 4096 (pos 0) }
    {
        Spaces {
            file: [0; SPACE],
            samples: [0; SPACE],
            words: [0; MOST_SAMPLES],
            read: [0; SPACE],
            written: [0; SPACE],
        }
    }

    // What an item that is no question changes in the spaces.
    fn put_item<R: Read>(&mut self, list: &mut R, kind: Kind, place: Place) -> io::Result<()> {
        match kind {
            Kind::PutFile => put(list, &mut self.file)?,
            Kind::PutSamples => put(list, &mut self.samples)?,
            Kind::DrawFile => draw(list, &mut self.file)?,
            Kind::DrawSamples => draw(list, &mut self.samples)?,
            Kind::KeepWritten => keep(&mut self.file, &self.written, place.written),
            Kind::KeepRead => keep(&mut self.samples, &self.read, place.read),
            _ => {}
        }
        Ok(())
    }

    // Does what an item says that is no question, and answers where the list then stands. A question, or a kind that is
    // not known, is only counted.
    pub fn follow<R: Read>(&mut self, list: &mut R, kind: Kind, place: Place) -> io::Result<Place> {
        self.put_item(list, kind, place)?;
        place_after(list, kind, place)
    }
}
