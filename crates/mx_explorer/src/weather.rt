ghost use Rattle.std.specs.Prelude.{◌≡◌, ◌≢◌, ◌+◌, ◌≤◌};
ghost use Rattle.mx_explorer.specs.Weather.{Climate, after_fate, fate_by, fate_in, generator_of};

use mx_letters::{Fate, Fates};
use rand_core::SeedableRng;
use rand_core::utils::NextWord;
use rand_pcg::Pcg32;
use std::marker::Model;

/// A network that loses and repeats parcels, by the random words of a generator. Each fate takes
/// one word, and the lowest byte of the word decides.
#[derive(Drop)]
pub struct Weather {
    words: Pcg32,
    /// How many of the 256 bytes lose a parcel.
    lost: u16,
    /// How many of the 256 bytes repeat a parcel.
    doubled: u16,
}

impl Model for Weather {
    ghost Value = { Climate };

    ghost view = { λ w. record { words = w.words; lost = w.lost; doubled = w.doubled } };

    ghost inverse = { λ c. record { words = c.words; lost = c.lost; doubled = c.doubled } };
}

impl Weather {
    /// Creates the weather of a seed: of the 256 values of a byte, `drop` lose a parcel, and
    /// `twice` others repeat it. The generator is `Pcg32`, made by `seed_from_u64`.
    pub fn of(seed: u64, drop: u16, twice: u16) -> Weather
        requires { drop + twice ≤ 256 }
        ensures { result ≡ record { words = generator_of seed; lost = drop; doubled = twice } }
    {
        Weather {
            words: Pcg32::seed_from_u64(seed),
            lost: drop,
            doubled: twice,
        }
    }
}

impl Fates for Weather {
    fn fate(&mut self) -> Fate
        ensures value { result ≡ fate_in self.old }
        ensures next { self.new ≡ after_fate self.old }
        ensures never_lost { self.old.lost ≡ 0 → result ≢ Fate.Drop }
        ensures never_repeated { self.old.doubled ≡ 0 → result ≢ Fate.Twice }
        ensures always_lost { self.old.lost ≡ 256 → result ≡ Fate.Drop }
        ensures always_repeated { self.old.lost ≡ 0 → self.old.doubled ≡ 256 → result ≡ Fate.Twice }
    {
        let word = self.words.next_word();
        fate_of(word % 256, self.lost, self.doubled)
    }
}

fn fate_of(byte: u32, lost: u16, doubled: u16) -> Fate
    ensures { result ≡ fate_by byte lost doubled }
{
    let lost = u32::from(lost);
    if byte < lost {
        Fate::Drop
    } else if byte < lost + u32::from(doubled) {
        Fate::Twice
    } else {
        Fate::Pass
    }
}
