// Opening: NcwReader::read of the Rust.
#![tactic(auto)]

ghost use Rattle.std.specs.Prelude.{◌≡◌, ◌+◌, ◌≤◌, length};
ghost use Rattle.format.specs.Refusals.{Fine};
ghost use Rattle.format.specs.Header.{fields_of, groups_of, entry};
ghost use Rattle.format.specs.Opening.{check_first, format_of, check_open, header_of};
ghost use Rattle.format.specs.Promises.{Opens};

use block::BlockHeader;
use format::{Answer, Depth, Fields, Header, Outcome, Refusal, RefusedAt, SampleFormat, refuse};

// The refusal of the first block, where there is a group. 3: block signature.
#[tactic(auto, unfolding(format::specs::Opening::check_first, format::specs::Refusals::refuse))]
fn check_first(s: &[u8], h: Fields) -> Result<(), RefusedAt>
    requires { (groups_of h.frames ≡ 0 → ⊥) → h.start + 16 ≤ length s.now }
    ensures { result ≡ check_first s.now h }
{
    refuse(
        h.frames.groups() != 0 && !block::is_block(&s[h.start as usize..]),
        Refusal::BlockSignature,
    )
}

// Every refusal of opening, in document 01's order.
#[tactic(auto, using(crate::proofs::Ways::openings), unfolding(format::specs::Opening::check_open))]
pub fn check_open(s: &[u8]) -> Result<(), RefusedAt>
    ensures { result ≡ check_open s.now }
{
    refuse(s.len() < Depth::HEADER_SIZE, Refusal::TooShort)?;
    refuse(!header::is_signature(s), Refusal::FileSignature)?;
    let h = header::read_fields(s);
    header::check_fields(h)?;
    header::check_offsets(h, s.len())?;
    header::check_table(s, h)?;
    check_first(s, h)
}

// The format of an opened file, which its first block's flags give; without groups PCM.
#[tactic(auto, using(crate::proofs::Ways::firsts), unfolding(format::specs::Opening::format_of))]
pub fn format_of(s: &[u8], h: Fields) -> SampleFormat
    requires { (check_open s.now ≡ Fine) × (h ≡ fields_of s.now) }
    ensures { result ≡ format_of s.now h }
{
    if h.frames.groups() != 0 && BlockHeader::read(&s[h.start as usize..]).is_float() {
        SampleFormat::Float
    } else {
        SampleFormat::Pcm
    }
}

// Where in an opened file group k begins, and where group k - 1 ends.
#[tactic(auto, using(crate::proofs::Ways::table_there))]
pub fn offset_of(file: &[u8], h: Fields, k: u32) -> usize
    requires { (check_open file.now ≡ Fine) × (h ≡ fields_of file.now) × (k ≤ groups_of h.frames) }
    ensures { result ≡ h.start + entry file.now h k }
{
    h.start as usize + header::entry_at(file, h, k) as usize
}

// What opening finds in a file that it does not refuse.
#[tactic(auto, using(laws::proofs::Opened::opened_long), unfolding(format::specs::Opening::header_of))]
fn header_of(s: &[u8]) -> Header
    requires { check_open s.now ≡ Fine }
    ensures { result ≡ header_of s.now }
{
    let h = header::read_fields(s);
    Header {
        channels: h.channels,
        depth: Depth::of(h.depth),
        rate: h.rate,
        frames: h.frames,
        table: h.table,
        start: h.start,
        size: h.size,
        groups: h.frames.groups(),
        format: format_of(s, h),
    }
}

// Opens a file: the header's numbers, the group count and the format, or by what it is refused.
#[tactic(auto, using(laws::proofs::Chain::settled), unfolding(format::specs::Opening::open_of))]
pub fn open(file: &[u8]) -> Answer
    ensures { Opens file.now result }
{
    if let Err(refused) = check_open(file) {
        return Answer::refused(refused);
    }
    Answer::of(Outcome::Opened(header_of(file)))
}
