// A refusal and its place as one number.
ghost use Rattle.std.specs.Prelude.{◌≡◌, ◌<◌};
ghost use Rattle.format.specs.Refusals.{No};
ghost use Rattle.format.specs.Boundary.{misfit_told, refusal_word};
ghost use Rattle.format.specs.declared.refusals.Refusal.{Refusal};
ghost use Rattle.format.specs.declared.refusals.Place.{Place};

use format::{RefusedAt, Told};

// The place that 36 tells; 0 for all others.
fn misfit_told(told: Told) -> u16
    ensures { result ≡ misfit_told told }
{
    match told {
        Told::Misfit(place) => place,
        Told::Bits(_) => 0,
        Told::Nothing => 0,
    }
}

// 0 where nothing is refused; otherwise the number, that place, the channel and the group, in 8, 16, 16 and 24 bits.
pub fn refusal_word(checked: Result<(), RefusedAt>) -> u64
    requires { (r : Refusal) (at : Place) → checked ≡ No r at → at.group < 8388608 }
    ensures { result ≡ refusal_word checked }
{
    match checked {
        Ok(()) => 0,
        Err(refused) => {
            let why = refused.why;
            let place = refused.place;
            let value = why.number() as u64 + 0x100 * misfit_told(why.told()) as u64;
            value + 0x100_0000 * place.channel as u64 + 0x100_0000_0000 * place.group as u64
        }
    }
}
