// A signed number as one that is not: v as 2v if it isn't negative, otherwise as −2v − 1.
ghost use Rattle.std.specs.Prelude.{◌≡◌};
ghost use Rattle.format.specs.SevenBits.{folded, unfolded};

// Of a negative number, !v is −v − 1.
pub fn fold(v: i32) -> u32
    ensures { result ≡ folded v }
{
    if v < 0 {
        2 * (!v as u32) + 1
    } else {
        2 * (v as u32)
    }
}

// And back.
pub fn unfold(n: u32) -> i32
    ensures { result ≡ unfolded n }
{
    let half = (n / 2) as i32;
    if n % 2 == 0 { half } else { !half }
}
