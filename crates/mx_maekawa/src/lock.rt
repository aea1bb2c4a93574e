//! The request that an arbiter is locked for.

ghost use Rattle.std.specs.Prelude.{◌≡◌};
ghost use Rattle.mx_maekawa.specs.ArbiterStep.{stamp_of, is_for, is_exactly, is_up_to};

use mx_stamps::Stamp;

#[derive(Clone, Copy)]
pub(crate) struct Lock {
    pub(crate) stamp: Stamp,
    pub(crate) grant: u64,
    /// The highest section number that the arbiter knew when it granted.
    pub(crate) last: u64,
}

pub(crate) fn stamp_of(lock: &Option<Lock>) -> Option<Stamp>
    ensures { result ≡ stamp_of lock.now }
{
    match lock {
        None => None,
        Some(lock) => Some(lock.stamp),
    }
}

pub(crate) fn is_for(lock: &Option<Lock>, stamp: &Stamp) -> bool
    ensures { result ≡ is_for lock.now stamp.now }
{
    match lock {
        None => false,
        Some(lock) => lock.stamp.is(stamp),
    }
}

pub(crate) fn is_exactly(lock: &Option<Lock>, stamp: &Stamp, grant: u64) -> bool
    ensures { result ≡ is_exactly lock.now stamp.now grant }
{
    match lock {
        None => false,
        Some(lock) => lock.stamp.is(stamp) && lock.grant == grant,
    }
}

pub(crate) fn is_up_to(lock: &Option<Lock>, stamp: &Stamp) -> bool
    ensures { result ≡ is_up_to lock.now stamp.now }
{
    match lock {
        None => false,
        Some(lock) => {
            lock.stamp.node.get() == stamp.node.get() && lock.stamp.number <= stamp.number
        }
    }
}
