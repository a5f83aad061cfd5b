// The change that stands for a remaster.
ghost use Rattle.std.specs.Prelude.{◌≡◌};
ghost use Rattle.remaster_job.specs.Halving.{halved, halved_into};

// Half of x, in steps of two from x's own parity: so frames of equal parity stay so, which mid/side asks for.
#[tactic(auto, using(crate::proofs::Halves::half_is))]
fn halved(x: i32) -> i32
    ensures { result ≡ halved x }
{
    (x >> 2) * 2 + (x & 1)
}

// Puts the old samples, halved, into `new`: as many as both have.
#[tactic(auto, using(crate::proofs::Halves::into_turn), unfolding(crate::specs::Halving::halved_into))]
pub fn halve(old: &[i32], new: &mut [i32])
    ensures { new.new ≡ halved_into old.now new.old }
{
    for i in 0..old.len().min(new.len()) {
        new[i] = halved(old[i]);
    }
}
