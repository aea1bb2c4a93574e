/// A letter of Raymond's algorithm (1989).
#[derive(Clone, Copy, Debug, PartialEq, Eq)]
pub enum RaymondMsg {
    /// A node wants the privilege (token). The number counts the requests of the sender.
    Request(u64),
    /// The privilege moves to the addressee. The first number is the hop, the number of this move;
    /// the second is the highest section number that the sender knows.
    Privilege(u64, u64),
    /// The privilege with this hop has arrived.
    Got(u64),
}

impl Default for RaymondMsg {
    ghost use Rattle.std.specs.Prelude.{◌≡◌};
    ghost use Rattle.mx_letters.specs.declared.raymond.RaymondMsg.TheVariants.{Request};

    ghost is_default = { λ letter. letter ≡ Request 0 };

    fn default() -> Self {
        RaymondMsg::Request(0)
    }
}
