// The kinds of the list's items.
ghost use Rattle.std.specs.Prelude.{◌≡◌};
ghost use Rattle.replay_list.specs.Kinds.{kind_of, number_of};

// There are two spaces: one holds the file, the other the samples.
#[derive(Clone, Copy, PartialEq, Eq)]
pub enum Kind {
    // The list ends here.
    End,
    // How many bytes of its space the file is, and the samples are.
    FileLength,
    SamplesLength,
    // Bytes of the list are put into a space.
    PutFile,
    PutSamples,
    // Drawn numbers are put into a space.
    DrawFile,
    DrawSamples,
    // What the question before wrote is the file from now on; what it read are the samples, and so is a summary that
    // it built.
    KeepWritten,
    KeepRead,
    // Channels, depth and rate for encoding and re-encoding.
    Settings,
    // The questions, to `PeaksCheck`.
    Open,
    Decode,
    Step,
    Encode,
    Reencode,
    ReadFrames,
    // Of peaks: the file's summary is built; of a summary, which the samples' bytes are, a pair or all pairs are read;
    // or it is checked against the file.
    Peaks,
    Peak,
    PeaksAll,
    PeaksCheck,
    // Of the next question, the recorded answer is false on purpose, or a sample of its room is changed on purpose.
    FalseAnswer,
    SpoiledRoom,
    // A number that is none of these.
    Other(u32),
}

impl Kind {
    // The kind that has that number in the list.
    pub fn of(number: u32) -> Kind
        ensures { result ≡ kind_of number }
    {
        match number {
            0 => Kind::End,
            1 => Kind::FileLength,
            2 => Kind::SamplesLength,
            3 => Kind::PutFile,
            4 => Kind::PutSamples,
            5 => Kind::DrawFile,
            6 => Kind::DrawSamples,
            7 => Kind::KeepWritten,
            8 => Kind::KeepRead,
            9 => Kind::Settings,
            16 => Kind::Open,
            17 => Kind::Decode,
            18 => Kind::Step,
            19 => Kind::Encode,
            20 => Kind::Reencode,
            21 => Kind::ReadFrames,
            22 => Kind::Peaks,
            23 => Kind::Peak,
            24 => Kind::PeaksAll,
            25 => Kind::PeaksCheck,
            32 => Kind::FalseAnswer,
            33 => Kind::SpoiledRoom,
            _ => Kind::Other(number),
        }
    }

    // The number in the list.
    pub fn number(self) -> u32
        ensures { result ≡ number_of self }
    {
        match self {
            Kind::End => 0,
            Kind::FileLength => 1,
            Kind::SamplesLength => 2,
            Kind::PutFile => 3,
            Kind::PutSamples => 4,
            Kind::DrawFile => 5,
            Kind::DrawSamples => 6,
            Kind::KeepWritten => 7,
            Kind::KeepRead => 8,
            Kind::Settings => 9,
            Kind::Open => 16,
            Kind::Decode => 17,
            Kind::Step => 18,
            Kind::Encode => 19,
            Kind::Reencode => 20,
            Kind::ReadFrames => 21,
            Kind::Peaks => 22,
            Kind::Peak => 23,
            Kind::PeaksAll => 24,
            Kind::PeaksCheck => 25,
            Kind::FalseAnswer => 32,
            Kind::SpoiledRoom => 33,
            Kind::Other(number) => number,
        }
    }
}
