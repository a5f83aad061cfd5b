// A sample as its 32 bits, and sums and differences of samples, wrapped at 32 bits.
#![tactic(auto)]

ghost use Rattle.std.specs.Prelude.{◌≡◌};
ghost use Rattle.format.specs.Numbers.{value, code_of, plus, minus};

// The 32 bits of x.
pub fn bits_of(x: i32) -> u32
    ensures { result ≡ code_of 32 x }
{
    x.cast_unsigned()
}

// The number whose 32 bits are n.
pub fn of_bits(n: u32) -> i32
    ensures { result ≡ value 32 n }
{
    n.cast_signed()
}

// a + b, wrapped at 32 bits.
pub fn wrapping_add(a: i32, b: i32) -> i32
    ensures { result ≡ plus a b }
{
    a.wrapping_add(b)
}

// a - b, wrapped at 32 bits.
pub fn wrapping_sub(a: i32, b: i32) -> i32
    ensures { result ≡ minus a b }
{
    a.wrapping_sub(b)
}
