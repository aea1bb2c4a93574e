//! Why a node refuses an event, and the words for it.

ghost use Rattle.std.specs.Prelude.{◌≡◌};
ghost use Rattle.mx_trace.specs.Causes.{cause_named, cause_number, cause_words};

/// Why a node refuses an event.
#[derive(Clone, Copy, Debug, PartialEq, Eq)]
pub enum Cause {
    /// The node waits already, or is inside.
    NotIdle,
    /// No next stamp exists.
    StampsSpent,
    /// The node is idle, or inside.
    NotWaiting,
    /// A permission is missing.
    NotGranted,
    /// The highest section number that the node knows is the greatest that is allowed.
    NumbersSpent,
    /// The node is not inside.
    NotInside,
    /// There is no such register.
    NoRegister,
    /// This is the first section that the journal does not cover. At a read, it is before the
    /// section of the node; at a settling, it is at most the number to settle up to.
    Gap(u64),
    /// At a read: the section has eight reads already. At a write: it has eight writes already.
    Full,
    /// The journal's base covers the sections up to this one. They are more than those to settle,
    /// or include the section of the node that reads.
    Below(u64),
}

/// All causes. Those with a number have 0.
pub const CAUSES: [Cause; 10] = [
    Cause::NotIdle,
    Cause::StampsSpent,
    Cause::NotWaiting,
    Cause::NotGranted,
    Cause::NumbersSpent,
    Cause::NotInside,
    Cause::NoRegister,
    Cause::Gap(0),
    Cause::Full,
    Cause::Below(0),
];

impl Cause {
    /// Returns the cause in these words, with 0 for its number, or `None` if there is no such cause.
    pub fn of_words(words: &str) -> Option<Cause>
        ensures { result ≡ cause_named words.now }
    {
        for cause in &CAUSES {
            if words == cause.words() {
                return Some(*cause);
            }
        }
        None
    }

    /// Returns the cause in words, without its number.
    pub fn words(&self) -> &'static str
        ensures { result.now ≡ cause_words self.now }
    {
        match self {
            Cause::NotIdle => "not idle",
            Cause::StampsSpent => "stamps spent",
            Cause::NotWaiting => "not waiting",
            Cause::NotGranted => "not granted",
            Cause::NumbersSpent => "numbers spent",
            Cause::NotInside => "not inside",
            Cause::NoRegister => "no register",
            Cause::Gap(_) => "gap",
            Cause::Full => "full",
            Cause::Below(_) => "below",
        }
    }

    /// Returns the number of a `Gap` or a `Below`, or `None` for any other cause.
    pub fn number(&self) -> Option<u64>
        ensures { result ≡ cause_number self.now }
    {
        match self {
            Cause::Gap(number) | Cause::Below(number) => Some(*number),
            _ => None,
        }
    }
}
