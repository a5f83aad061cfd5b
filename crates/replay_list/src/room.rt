// Room that is lent, for samples or for a file's bytes, four at a time: filled before, summed up and looked over
// after.
ghost use Rattle.std.specs.Prelude.{◌≡◌, ◌≤◌, length, take};
ghost use Rattle.replay_list.specs.Room.{mark_of, marked, is_kept, sum_of, other_than, spoiled_at};

use lent_samples::Stored;

// How many samples the room is.
pub fn room_length<E: Stored>(room: &[E]) -> usize
    ensures { result ≡ length (E.samples room.now) }
{
    E::count(room).0 as usize
}

// What the room holds at i before it is lent.
fn mark(i: usize) -> i32
    ensures { result ≡ mark_of i }
{
    (0x5A5A_0000 + i % 65536) as i32
}

// Fills the room before it is lent to a call: what the call leaves alone is known after.
#[tactic(auto, using(crate::proofs::Rooms::marking))]
pub fn fill<E: Stored>(room: &mut [E])
    ensures puts { E.samples room.new ≡ marked (length (E.samples room.old)) }
    ensures keeps { E.rest room.new ≡ E.rest room.old }
{
    for i in 0..room_length(room) {
        E::put_sample(room, i, mark(i));
    }
}

// Whether the room holds from `start` on what it was filled with.
#[tactic(auto, using(crate::proofs::Rooms::keeping))]
pub fn is_kept<E: Stored>(room: &[E], start: usize) -> bool
    ensures { result ≡ is_kept start (E.samples room.now) }
{
    for i in start..room_length(room) {
        if E::sample_at(room, i) != mark(i) {
            return false;
        }
    }
    true
}

// The 32 bits of the first n as digits to the base 1,000,003, modulo a prime.
#[tactic(auto, using(crate::proofs::Rooms::sum_none))]
pub fn checksum<E: Stored>(room: &[E], n: usize) -> u64
    requires { n ≤ length (E.samples room.now) }
    ensures { result ≡ sum_of (take n (E.samples room.now)) }
{
    let mut sum: u64 = 0;
    for i in 0..n {
        let x = sample::bits_of(E::sample_at(room, i)) as u64;
        sum = (sum * 1_000_003 + x) % 4_294_967_291;
    }
    sum
}

// Another sample than x.
fn other(x: i32) -> i32
    ensures { result ≡ other_than x }
{
    x.wrapping_add(1)
}

// Changes the sample at `at` on purpose, where the room reaches so far.
pub fn spoil<E: Stored>(room: &mut [E], at: usize)
    ensures puts { E.samples room.new ≡ spoiled_at at (E.samples room.old) }
    ensures keeps { E.rest room.new ≡ E.rest room.old }
{
    if at < room_length(room) {
        let held = E::sample_at(room, at);
        E::put_sample(room, at, other(held));
    }
}
