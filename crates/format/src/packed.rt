// What the bits word of a block says.
ghost use Rattle.std.specs.Prelude.{◌≡◌};
ghost use Rattle.format.specs.Packed.{is_beyond};

// What the bits word of a block says: differences or raw values, at a width, or nothing that is read.
#[derive(Clone, Copy)]
pub enum Coding {
    Differences(u32),
    Raw(u32),
    Beyond,
}

impl Coding {
    // Whether nothing is read.
    #[tactic(auto, unfolding(crate::specs::Packed::is_beyond))]
    pub fn is_beyond(self) -> bool
        ensures { result ≡ is_beyond self }
    {
        match self {
            Coding::Differences(_) => false,
            Coding::Raw(_) => false,
            Coding::Beyond => true,
        }
    }
}
