use mx_stamps::Stamp;

/// A letter of Maekawa's algorithm (1985), with the stamp of the request that it concerns.
#[derive(Clone, Copy, Debug, PartialEq, Eq)]
pub enum MaekawaMsg {
    /// A requester asks an arbiter for its grant.
    Request(Stamp),
    /// An arbiter grants the request. The first number is that of the grant, the second the highest
    /// section number that the arbiter has received.
    Locked(Stamp, u64, u64),
    /// An arbiter has another request to serve first.
    Failed(Stamp),
    /// An arbiter asks the requester to give back the grant of this number.
    Inquire(Stamp, u64),
    /// A requester gives back the grant of this number.
    Relinquish(Stamp, u64),
    /// A requester has ended its requests up to this stamp. The number is the highest section
    /// number that the requester knows.
    Release(Stamp, u64),
}

impl Default for MaekawaMsg {
    ghost use Rattle.std.specs.Prelude.{◌≡◌};
    ghost use Rattle.mx_letters.specs.declared.maekawa.MaekawaMsg.TheVariants.{Request};

    ghost is_default = { λ letter. letter ≡ Request (record { number = 0; node = 0 }) };

    fn default() -> Self {
        MaekawaMsg::Request(Stamp::default())
    }
}
