// Document 01, "The units".
ghost use Rattle.std.specs.Prelude.{◌≡◌, ◌≤◌};
ghost use Rattle.format.specs.Header.{groups_of};
ghost use Rattle.format.specs.Units.{depth_word, depth_of, is_depth, bits_in, bytes_in, lowest, highest};
ghost use Rattle.format.specs.Units.{samples_in, Framing, active};

// A sample depth: its range, its bytes, and the sizes that no depth changes.
#[derive(Clone, Copy)]
pub enum Depth {
    Eight,
    Sixteen,
    TwentyFour,
    ThirtyTwo,
}

impl Depth {
    // Every block holds so many samples of one channel; the last of a file is padded to them.
    pub const SAMPLES_PER_BLOCK: usize = 512;

    // The file's header, in bytes.
    pub const HEADER_SIZE: usize = 120;

    // A block's header, in bytes, before its packed values.
    pub const BLOCK_HEADER_SIZE: usize = 16;

    // The depth that a word names, if it names one.
    pub fn from_bits(bits: u16) -> Option<Depth>
        ensures { result ≡ depth_word bits }
    {
        match bits {
            8 => Some(Depth::Eight),
            16 => Some(Depth::Sixteen),
            24 => Some(Depth::TwentyFour),
            32 => Some(Depth::ThirtyTwo),
            _ => None,
        }
    }

    // The depth that a word names; where it names none, 0 among them, the widest. Opening refuses such a word,
    // 11: depth not 8, 16, 24, 32.
    #[tactic(auto, unfolding(crate::specs::Units::depth_of))]
    pub fn of(bits: u16) -> Depth
        ensures { result ≡ depth_of bits }
    {
        Depth::from_bits(bits).unwrap_or(Depth::ThirtyTwo)
    }

    // Whether a word names a depth.
    #[tactic(auto, unfolding(crate::specs::Units::is_depth))]
    pub fn is_depth(bits: u16) -> bool
        ensures { result ≡ is_depth bits }
    {
        Depth::from_bits(bits).is_some()
    }

    // Bits in a sample.
    pub fn bits(self) -> u16
        ensures { result ≡ bits_in self }
    {
        match self {
            Depth::Eight => 8,
            Depth::Sixteen => 16,
            Depth::TwentyFour => 24,
            Depth::ThirtyTwo => 32,
        }
    }

    // Bytes in a sample.
    pub fn bytes(self) -> u16
        ensures { result ≡ bytes_in self }
    {
        self.bits() / 8
    }

    // The lowest sample of this depth.
    pub fn lowest(self) -> i32
        ensures { result ≡ lowest self }
    {
        match self {
            Depth::Eight => -128,
            Depth::Sixteen => -32_768,
            Depth::TwentyFour => -8_388_608,
            Depth::ThirtyTwo => -2_147_483_648,
        }
    }

    // The highest sample of this depth.
    pub fn highest(self) -> i32
        ensures { result ≡ highest self }
    {
        match self {
            Depth::Eight => 127,
            Depth::Sixteen => 32_767,
            Depth::TwentyFour => 8_388_607,
            Depth::ThirtyTwo => 2_147_483_647,
        }
    }
}

// Marks and headers count frames.
#[derive(Clone, Copy)]
pub struct Frames(pub u32);

// Buffers and slices count samples.
#[derive(Clone, Copy)]
pub struct Samples(pub u64);

// Why so many samples are no number of frames.
#[derive(Clone, Copy)]
pub enum Unframed {
    Incomplete,
    TooMany,
}

impl Frames {
    // A group's frames: a block's samples, of one channel.
    const PER_GROUP: u32 = Depth::SAMPLES_PER_BLOCK as u32;

    // As many frames in samples: frames times channels.
    pub fn samples(self, channels: u16) -> Samples
        ensures { result ≡ samples_in self channels }
    {
        Samples(self.0 as u64 * channels as u64)
    }

    // How many groups hold as many frames: frames / 512, rounded up.
    pub fn groups(self) -> u32
        ensures { (result ≡ groups_of self) × (result ≤ 8388608) }
    {
        let whole = self.0 / Frames::PER_GROUP;
        if self.0 % Frames::PER_GROUP == 0 {
            whole
        } else {
            whole + 1
        }
    }

    // How many frames of group g are active; of a group that is not there, none.
    pub fn active(self, g: u32) -> Frames
        ensures { (result.0 ≡ active self g) × (result.0 ≤ 512) }
    {
        let before = Frames::PER_GROUP as u64 * g as u64;
        let all = self.0 as u64;
        if all <= before {
            return Frames(0);
        }
        let left = all - before;
        if left < Frames::PER_GROUP as u64 {
            return Frames(left as u32);
        }
        Frames(Frames::PER_GROUP)
    }
}

impl Samples {
    // As many samples in frames: only whole ones, at most 4,294,967,295, and none without a channel.
    pub fn frames(self, channels: u16) -> Result<Frames, Unframed>
        ensures { Framing self channels result }
    {
        if channels == 0 {
            return Err(Unframed::Incomplete);
        }
        let n = self.0;
        let c = channels as u64;
        if n % c != 0 {
            return Err(Unframed::Incomplete);
        }
        let f = n / c;
        if 0xFFFF_FFFF < f {
            return Err(Unframed::TooMany);
        }
        Ok(Frames(f as u32))
    }
}
