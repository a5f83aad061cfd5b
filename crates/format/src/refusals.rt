// Document 01, "Numbers of refusal".
ghost use Rattle.std.specs.Prelude.{◌≡◌, false, OnOk};
ghost use Rattle.format.specs.Refusals.{number, told, nowhere, refuse};
ghost use Rattle.format.specs.Places.{at_group, at_channel, in_group, in_channel};

// Why a call is refused; `number` has each in document 01's words.
#[derive(Clone, Copy)]
pub enum Refusal {
    TooShort,
    FileSignature,
    BlockSignature,
    BitsWord(i16),
    ZeroChannels,
    DepthUnknown,
    ZeroRate,
    TableOffset,
    DataOffset,
    TableLength,
    LastEntry,
    DataWithoutFrames,
    FirstEntry,
    EntryBounds,
    FloatDiffers,
    MidSideChannels,
    BytesLeft,
    WriterSpec,
    IncompleteFrame,
    ValueOutside,
    TooManyFrames,
    NotStereo,
    ParityDiffers,
    WidthTooSmall(u16),
    DataTooLarge,
    UnknownMode,
    SampleBytes,
    TemplateDiffers,
    TemplateBounds,
    TemplateOffsets,
    ShortGroup,
    TemplateBits,
    TemplateFlags,
    TemplateBytesLeft,
    OutputTooShort,
    RangePastEnd,
    NumberCut,
    NumberLong,
    NumberTooLarge,
    BytesBehind,
    PeaksCrossed,
    FloatFile,
    PairPastEnd,
}

// What a refusal tells besides its number.
#[derive(Clone, Copy)]
pub enum Told {
    Nothing,
    Bits(i16),
    Misfit(u16),
}

// Where it is refused: the file's group and its channel.
#[derive(Clone, Copy)]
pub struct Place {
    pub group: u32,
    pub channel: u16,
}

// Of a refusal that concerns no group.
pub const NOWHERE: Place = Place {
    group: 0,
    channel: 0,
};

impl Place {
    // The same place, in that group.
    pub fn at_group(self, group: u32) -> Place
        ensures { result ≡ at_group group self }
    {
        Place {
            group,
            channel: self.channel,
        }
    }

    // The same place, of that channel.
    pub fn at_channel(self, channel: u16) -> Place
        ensures { result ≡ at_channel channel self }
    {
        Place {
            group: self.group,
            channel,
        }
    }
}

// What is refused, and where.
#[derive(Clone, Copy)]
pub struct RefusedAt {
    pub why: Refusal,
    pub place: Place,
}

// A check: refused where the test holds, for this reason, which concerns no group.
#[tactic(auto, unfolding(crate::specs::Refusals::refuse))]
pub fn refuse(test: bool, why: Refusal) -> Result<(), RefusedAt>
    ensures says { result ≡ refuse test why }
    ensures passes { OnOk result (test ≡ false) }
{
    if test {
        return Err(why.nowhere());
    }
    Ok(())
}

// What the checks of group g say: they do not know its number.
#[tactic(auto, unfolding(crate::specs::Places::located))]
pub fn in_group(g: u32, checks: Result<(), RefusedAt>) -> Result<(), RefusedAt>
    ensures { result ≡ in_group g checks }
{
    match checks {
        Ok(()) => Ok(()),
        Err(refused) => Err(RefusedAt {
            why: refused.why,
            place: refused.place.at_group(g),
        }),
    }
}

// What the checks of channel c's block say, likewise.
#[tactic(auto, unfolding(crate::specs::Places::located))]
pub fn in_channel(c: u16, checks: Result<(), RefusedAt>) -> Result<(), RefusedAt>
    ensures { result ≡ in_channel c checks }
{
    match checks {
        Ok(()) => Ok(()),
        Err(refused) => Err(RefusedAt {
            why: refused.why,
            place: refused.place.at_channel(c),
        }),
    }
}

impl Refusal {
    // The documents' number for it.
    pub fn number(self) -> u32
        ensures { result ≡ number self }
    {
        match self {
            Refusal::TooShort => 1, // input ends too soon
            Refusal::FileSignature => 2, // file signature
            Refusal::BlockSignature => 3, // block signature
            Refusal::BitsWord(_) => 4, // bits word beyond 32 either way; it is kept, and told too
            Refusal::ZeroChannels => 10, // zero channels
            Refusal::DepthUnknown => 11, // depth not 8, 16, 24, 32
            Refusal::ZeroRate => 12, // zero rate
            Refusal::TableOffset => 13, // table offset under 120
            Refusal::DataOffset => 14, // data offset under table offset
            Refusal::TableLength => 15, // wrong table length
            Refusal::LastEntry => 16, // last entry is not the data size
            Refusal::DataWithoutFrames => 17, // zero frames with data
            Refusal::FirstEntry => 18, // first entry not 0
            Refusal::EntryBounds => 19, // an entry's end past the data size, or under 80 × channels after its start
            Refusal::FloatDiffers => 20, // float bit differs from the file's first block
            Refusal::MidSideChannels => 21, // mid/side without two channels
            Refusal::BytesLeft => 22, // bytes left in a group
            Refusal::WriterSpec => 30, // writer: channels or depth that it does not take, or zero rate
            Refusal::IncompleteFrame => 31, // incomplete frame
            Refusal::ValueOutside => 32, // value outside depth
            Refusal::TooManyFrames => 33, // over 4,294,967,295 frames
            Refusal::NotStereo => 34, // mid/side without stereo
            Refusal::ParityDiffers => 35, // parity differs
            Refusal::WidthTooSmall(_) => 36, // value or difference doesn't fit width; its place is kept, and told too
            Refusal::DataTooLarge => 37, // data size over 32 bits
            Refusal::UnknownMode => 38, // host boundary: unknown mode
            Refusal::SampleBytes => 39, // host boundary: sample bytes not a multiple of 4
            Refusal::TemplateDiffers => 40, // the template's channels, depth, rate or frames differ from the call's
            Refusal::TemplateBounds => 41, // template: table or data bounds
            Refusal::TemplateOffsets => 42, // template: offsets not rising from 0 to the data size
            Refusal::ShortGroup => 43, // template group under 12 bytes
            Refusal::TemplateBits => 44, // template: bits 0 or 1
            Refusal::TemplateFlags => 45, // template: flags above 1
            Refusal::TemplateBytesLeft => 46, // bytes left in a template group
            Refusal::OutputTooShort => 50, // lent output too short
            Refusal::RangePastEnd => 51, // first frame + count over the file's frames
            Refusal::NumberCut => 60, // a number in groups of seven bits is cut short
            Refusal::NumberLong => 61, // its last byte is zero, after others
            Refusal::NumberTooLarge => 62, // it is over 32 bits
            Refusal::BytesBehind => 63, // bytes left over behind the last number
            Refusal::PeaksCrossed => 64, // smallest above largest
            Refusal::FloatFile => 66, // a float file, where only PCM will do
            Refusal::PairPastEnd => 67, // asking past the last group or channel
        }
    }

    // Refused for this reason, which concerns no group.
    pub fn nowhere(self) -> RefusedAt
        ensures { (result.why ≡ self) × (result.place ≡ nowhere) }
    {
        RefusedAt {
            why: self,
            place: NOWHERE,
        }
    }

    // 4 the bits word that was read, 36 the place of the value or difference in its block.
    pub fn told(self) -> Told
        ensures { result ≡ told self }
    {
        match self {
            Refusal::BitsWord(bits) => Told::Bits(bits),
            Refusal::WidthTooSmall(place) => Told::Misfit(place),
            _ => Told::Nothing,
        }
    }
}
