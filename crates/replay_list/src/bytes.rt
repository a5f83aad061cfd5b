// A room of bytes, four to a sample: what is left of every byte of it.
ghost use Rattle.std.specs.Prelude.{◌≡◌};
ghost use Rattle.replay_list.specs.Bytes.{marked_bytes, spoiled_bytes, is_answered};

use crate::answers::{Recorded, Said, is_recorded};
use crate::room::{fill, spoil};

// Fills the room before it is lent to a call.
#[tactic(auto, using(crate::proofs::Wholes::filled_bytes))]
pub fn fill_bytes(room: &mut [u8])
    ensures { room.new ≡ marked_bytes room.old }
{
    fill(room);
}

#[tactic(auto, using(crate::proofs::Wholes::spoilt_bytes))]
fn spoil_bytes(room: &mut [u8], at: usize)
    ensures { room.new ≡ spoiled_bytes at room.old }
{
    spoil(room, at);
}

// Whether a call answered as recorded, by what it said and what it wrote. The room is changed before at `spoiled`,
// where it reaches so far.
pub fn is_answered(said: Said, spoiled: usize, room: &mut [u8], want: Recorded) -> bool
    ensures says { result ≡ is_answered said room.old spoiled want }
    ensures leaves { room.new ≡ spoiled_bytes spoiled room.old }
{
    spoil_bytes(room, spoiled);
    is_recorded(said, want, room)
}
