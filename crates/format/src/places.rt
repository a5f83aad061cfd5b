// Document 02, L6: what a refusal names.
ghost use Rattle.std.specs.Prelude.{◌≡◌};
ghost use Rattle.format.specs.Lists.{is_in};
ghost use Rattle.format.specs.Places.{of_groups, of_blocks, inside, outside};

// No group, the group, or the group and the channel.
#[derive(Clone, Copy)]
pub enum Named {
    NoGroup,
    TheGroup,
    TheBlock,
}

// Whether the refusal of that number names the group alone.
fn is_of_group(n: u32) -> bool
    ensures { result ≡ is_in n of_groups }
{
    (n == 19) | (n == 22) | (n == 34) | (n == 35) | (n == 43) | (n == 46)
}

// Whether it names the group and the channel.
fn is_of_block(n: u32) -> bool
    ensures { result ≡ is_in n of_blocks }
{
    (n == 1) | (n == 3) | (n == 4) | (n == 20) | (n == 21) | (n == 36) | (n == 44) | (n == 45)
}

impl Named {
    // What the refusal of that number names before the groups are read, and after them.
    pub fn outside(number: u32) -> Named
        ensures { result ≡ outside number }
    {
        if (number == 19) | (number == 35) {
            return Named::TheGroup;
        }
        Named::NoGroup
    }

    // The same while they are read.
    pub fn inside(number: u32) -> Named
        ensures { result ≡ inside number }
    {
        if is_of_group(number) {
            return Named::TheGroup;
        }
        if is_of_block(number) {
            return Named::TheBlock;
        }
        Named::NoGroup
    }
}
