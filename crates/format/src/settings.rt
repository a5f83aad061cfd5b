// What a file's samples are, and how a caller wants them written.

// What a sample's 32 bits are: an integer of the file's depth, or the bit pattern of an f32.
#[derive(Clone, Copy)]
pub enum SampleFormat {
    Pcm,
    Float,
}

// Which form the channels of newly encoded groups take.
#[derive(Clone, Copy)]
pub enum StereoMode {
    // In each group of two channels mid/side where that is exact and smaller than direct, and else direct.
    Auto,
    // The channels as they are.
    Direct,
    // Mid/side in every group; where there are not two channels, or a frame's samples differ in parity, this refuses.
    MidSide,
}

// What a writer is told of the samples. The encoder takes 1 to 8 channels and every depth, the re-encoder mono and
// stereo of 16 and of 24 bits.
#[derive(Clone, Copy)]
pub struct PcmSpec {
    pub channels: u16,
    pub bits_per_sample: u16,
    pub sample_rate: u32,
}
