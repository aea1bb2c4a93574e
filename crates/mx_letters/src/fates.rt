ghost use Rattle.std.specs.Prelude.{◌≡◌};
ghost use Rattle.mx_letters.specs.declared.fates.Fate.TheVariants.{Pass};

/// What the network does with a parcel on its way to the addressee.
#[derive(Clone, Copy, Debug, PartialEq, Eq)]
pub enum Fate {
    /// It is delivered.
    Pass,
    /// It is lost.
    Drop,
    /// It is delivered twice.
    Twice,
}

/// A source of fates, called once for each parcel.
pub trait Fates {
    /// Returns the fate of the next parcel.
    fn fate(&mut self) -> Fate;
}

/// A network that neither loses nor repeats a parcel.
#[derive(Clone, Copy, Debug, Default, PartialEq, Eq)]
pub struct Fair;

impl Fates for Fair {
    fn fate(&mut self) -> Fate
        ensures { result ≡ Pass }
    {
        Fate::Pass
    }
}
