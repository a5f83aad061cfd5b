// Pairs of a summary whose checks have passed, put into what is lent.
ghost use Rattle.std.specs.Prelude.{◌≡◌, ◌+◌, ◌*◌, ◌≤◌, length};
ghost use Rattle.format.specs.Refusals.{Fine};
ghost use Rattle.format.specs.Lists.{over};
ghost use Rattle.format.specs.Peaks.{pair_count, from_pair, check_summary, pairs_from};

use crate::numbers::{behind_two, peak_at};
use lent_samples::Stored;

// The bytes from pair k on.
#[tactic(auto, using(crate::proofs::Pairs::walked))]
fn from_pair(s: &[u8], k: u64) -> &[u8]
    requires { (check_summary s.now ≡ Fine) × (k ≤ pair_count s.now) }
    ensures { result.now ≡ from_pair s.now k }
{
    let mut pairs = behind_two(s);
    for _ in 0..k {
        pairs = behind_two(pairs);
    }
    pairs
}

// Puts n pairs from pair k on at the front of what is lent.
#[tactic(auto, using(crate::proofs::Put::puts))]
pub fn put_pairs<E: Stored>(lent: &mut [E], s: &[u8], k: u64, n: u64)
    requires { (check_summary s.now ≡ Fine) × (k + n ≤ pair_count s.now)
        × (2 * n ≤ length (E.samples lent.old)) }
    ensures puts { E.samples lent.new ≡ over (pairs_from s.now k n) (E.samples lent.old) }
    ensures keeps { E.rest lent.new ≡ E.rest lent.old }
{
    let mut pairs = from_pair(s, k);
    for i in 0..n as usize {
        let p = peak_at(pairs);
        E::put_sample(lent, 2 * i, p.smallest);
        E::put_sample(lent, 2 * i + 1, p.largest);
        pairs = behind_two(pairs);
    }
}
