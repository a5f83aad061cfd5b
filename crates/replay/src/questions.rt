// The questions of the list, each in as much room as it says.
ghost use Rattle.std.specs.Prelude.{◌≡◌, take};
ghost use Rattle.replay.specs.Places.{spec_of, place_after};

use crate::items::{NOWHERE, Place, Spaces, part};
use format::{Frames, PcmSpec};
use replay_counts::COUNTS;
use replay_list::{Kind, Verdict, read_u16, read_u32};
use std::io;
use std::io::Read;

// The settings that the list has put.
fn spec_of(place: Place) -> PcmSpec
    ensures { result ≡ spec_of place }
{
    PcmSpec {
        channels: place.channels,
        bits_per_sample: place.depth,
        sample_rate: place.rate,
    }
}

// So much of the room, or all where there is less.
fn lent<T>(room: &mut [T], n: usize) -> &mut [T]
    ensures { result.now ≡ take n room.old }
{
    let n = n.min(room.len());
    &mut room[..n]
}

// `open`, `decode`, `step`, `read_frames`, `encode` and `reencode` ask one question each; `build_peaks`, `read_peak`,
// `read_peaks` and `check_peaks` those about peaks, with the samples' bytes as summary.
impl Spaces {
    fn open<R: Read>(&self, list: &mut R, place: Place) -> io::Result<Verdict> {
        replay_reading::open(list, part(&self.file, place.file))
    }

    fn decode<R: Read>(&mut self, list: &mut R, place: Place) -> io::Result<Verdict> {
        let asked = read_u16(list)? as usize;
        replay_reading::decode(
            list,
            part(&self.file, place.file),
            place.spoiled,
            lent(&mut self.words, asked),
            lent(&mut self.read, 4 * asked),
        )
    }

    fn step<R: Read>(&mut self, list: &mut R, place: Place) -> io::Result<Verdict> {
        let group = read_u32(list)?;
        let asked = read_u16(list)? as usize;
        replay_reading::step(
            list,
            part(&self.file, place.file),
            group,
            place.spoiled,
            lent(&mut self.words, asked),
        )
    }

    fn read_frames<R: Read>(&mut self, list: &mut R, place: Place) -> io::Result<Verdict> {
        let first = Frames(read_u32(list)?);
        let count = Frames(read_u32(list)?);
        let asked = read_u16(list)? as usize;
        replay_reading::read_frames(
            list,
            part(&self.file, place.file),
            first,
            count,
            place.spoiled,
            lent(&mut self.words, asked),
            lent(&mut self.read, 4 * asked),
        )
    }

    fn encode<R: Read>(&mut self, list: &mut R, place: Place) -> io::Result<Verdict> {
        let mode = read_u32(list)?;
        let asked = read_u16(list)? as usize;
        replay_writing::encode(
            list,
            part(&self.samples, place.samples),
            spec_of(place),
            mode,
            place.spoiled,
            lent(&mut self.written, asked),
        )
    }

    fn reencode<R: Read>(&mut self, list: &mut R, place: Place) -> io::Result<Verdict> {
        let asked = read_u16(list)? as usize;
        replay_writing::reencode(
            list,
            part(&self.samples, place.samples),
            spec_of(place),
            part(&self.file, place.file),
            place.spoiled,
            lent(&mut self.written, asked),
        )
    }

    fn build_peaks<R: Read>(&mut self, list: &mut R, place: Place) -> io::Result<Verdict> {
        let asked = read_u16(list)? as usize;
        replay_peaks::build(
            list,
            part(&self.file, place.file),
            place.spoiled,
            lent(&mut self.read, asked),
        )
    }

    fn read_peak<R: Read>(&mut self, list: &mut R, place: Place) -> io::Result<Verdict> {
        let group = read_u32(list)?;
        let channel = read_u32(list)?;
        let asked = read_u16(list)? as usize;
        replay_reading::read_peak(
            list,
            part(&self.samples, place.samples),
            group,
            channel,
            place.spoiled,
            lent(&mut self.words, asked),
            lent(&mut self.read, 4 * asked),
        )
    }

    fn read_peaks<R: Read>(&mut self, list: &mut R, place: Place) -> io::Result<Verdict> {
        let asked = read_u16(list)? as usize;
        replay_reading::read_peaks(
            list,
            part(&self.samples, place.samples),
            place.spoiled,
            lent(&mut self.words, asked),
            lent(&mut self.read, 4 * asked),
        )
    }

    fn check_peaks<R: Read>(&self, list: &mut R, place: Place) -> io::Result<Verdict> {
        let summary = part(&self.samples, place.samples);
        replay_peaks::check(list, summary, part(&self.file, place.file))
    }

    // Whether the question is answered as recorded; nothing where the item is none.
    fn ask<R: Read>(
        &mut self,
        list: &mut R,
        kind: Kind,
        place: Place,
    ) -> io::Result<Option<Verdict>> {
        let verdict = match kind {
            Kind::Open => self.open(list, place)?,
            Kind::Decode => self.decode(list, place)?,
            Kind::Step => self.step(list, place)?,
            Kind::Encode => self.encode(list, place)?,
            Kind::Reencode => self.reencode(list, place)?,
            Kind::ReadFrames => self.read_frames(list, place)?,
            Kind::Peaks => self.build_peaks(list, place)?,
            Kind::Peak => self.read_peak(list, place)?,
            Kind::PeaksAll => self.read_peaks(list, place)?,
            Kind::PeaksCheck => self.check_peaks(list, place)?,
            _ => return Ok(None),
        };
        Ok(Some(verdict))
    }
}

// Nothing is false on purpose any more; what was read, built or written can be kept.
#[tactic(auto, unfolding(crate::specs::Places::place_after))]
fn place_after(kind: Kind, place: Place, verdict: Verdict) -> Place
    ensures { result ≡ place_after kind place verdict }
{
    let mut after = Place {
        is_false: false,
        spoiled: NOWHERE,
        ..place
    };
    match kind {
        Kind::Decode | Kind::Peaks => after.read = verdict.length as usize,
        Kind::Encode | Kind::Reencode => after.written = verdict.length as usize,
        _ => {}
    }
    after
}

// If the item is a question, it is asked and counted. Answers where the list then stands.
pub fn answer<R: Read>(
    rt: &impl Print,
    list: &mut R,
    kind: Kind,
    place: Place,
    spaces: &mut Spaces,
    counts: &mut [u64; COUNTS],
) -> io::Result<Place> {
    let Some(verdict) = spaces.ask(list, kind, place)? else {
        return Ok(place);
    };
    replay_counts::tally(rt, counts, place.items, kind, place.is_false, verdict)?;
    Ok(place_after(kind, place, verdict))
}
