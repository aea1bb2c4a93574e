use mx_stamps::Stamp;

/// A letter of Ricart and Agrawala's algorithm (1981), with the stamp of the request that it
/// concerns.
#[derive(Clone, Copy, Debug, PartialEq, Eq)]
pub enum RicartMsg {
    /// A node asks for the section.
    Request(Stamp),
    /// The sender permits the request of this stamp. The number is the highest section number that
    /// the sender knows.
    Reply(Stamp, u64),
}

impl Default for RicartMsg {
    ghost use Rattle.std.specs.Prelude.{◌≡◌};
    ghost use Rattle.mx_letters.specs.declared.ricart.RicartMsg.TheVariants.{Request};

    ghost is_default = { λ letter. letter ≡ Request (record { number = 0; node = 0 }) };

    fn default() -> Self {
        RicartMsg::Request(Stamp::default())
    }
}
