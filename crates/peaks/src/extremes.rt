// The smallest and the largest sample of a channel in a group.
ghost use Rattle.std.specs.Prelude.{◌≡◌, ◌<◌, length};
ghost use Rattle.format.specs.Peaks.{peak_of};

use format::Peak;

// Of samples, of which there is at least one.
#[tactic(auto, using(crate::proofs::Picking::picks))]
pub fn peak_of(run: &[i32]) -> Peak
    requires { 0 < length run.now }
    ensures { result ≡ peak_of run.now }
{
    let mut smallest = run[0];
    let mut largest = run[0];
    for &x in &run[1..] {
        smallest = smallest.min(x);
        largest = largest.max(x);
    }
    Peak { smallest, largest }
}
