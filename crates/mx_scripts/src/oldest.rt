//! The oldest parcel that an order delivers or loses.

ghost use Rattle.std.specs.Prelude.{◌≡◌, ◌<◌, ℕ, false, IfNone, IfSome, IsTrue, slice_get};
ghost use Rattle.mx_lines.specs.declared.orders.Scope.{Scope};
ghost use Rattle.mx_scripts.specs.Fates.{IsBelow, IsFirst, IsOldest, IsOver, is_wanted, older};

use crate::in_flight::Wanted;
use crate::links::ends;
use crate::state::State;
use mx_lines::Scope;
use mx_nodelaws::Exclusion;
use mx_stamps::{LINKS, link};

/// Returns the lesser of two numbers, or the only one.
fn older(one: Option<u64>, other: Option<u64>) -> Option<u64>
    ensures { result ≡ older one other }
{
    match (one, other) {
        (Some(one), Some(other)) => Some(one.min(other)),
        (Some(one), None) => Some(one),
        (None, other) => other,
    }
}

impl<C: Exclusion> State<C> {
    /// Returns the oldest parcel in a scope that is wanted.
    pub(crate) fn oldest(&self, scope: &Scope, wanted: Wanted) -> Option<u64>
        ensures some { IfSome result
            (IsFirst (is_wanted self.now.fates self.now.cluster.sent scope.now wanted)) }
        ensures none { IfNone result ((k : ℕ)
            → is_wanted self.now.fates self.now.cluster.sent scope.now wanted k ≡ false) }
    {
        match scope {
            Scope::All => self.oldest_of_all(wanted),
            Scope::Link(from, to) => self.oldest_over(link(*from, *to), scope, wanted),
        }
    }

    fn oldest_of_all(&self, wanted: Wanted) -> Option<u64>
        ensures some { IfSome result
            (IsFirst (is_wanted self.now.fates self.now.cluster.sent Scope.All wanted)) }
        ensures none { IfNone result ((k : ℕ)
            → is_wanted self.now.fates self.now.cluster.sent Scope.All wanted k ≡ false) }
    {
        let number = self.under_way.oldest();
        if self.is_wanted(&Scope::All, wanted, number) {
            return Some(number);
        }
        self.oldest_of_links(wanted)
    }

    fn oldest_of_links(&self, wanted: Wanted) -> Option<u64>
        ensures { IsOldest (λ k. IsBelow 441 (slice_get self.now.cluster.sent k))
            (is_wanted self.now.fates self.now.cluster.sent Scope.All wanted) result }
    {
        let mut oldest = None;
        for link in 0..LINKS {
            oldest = older(oldest, self.oldest_over(link, &Scope::All, wanted));
        }
        oldest
    }

    /// Returns the oldest parcel over a link that is wanted.
    fn oldest_over(&self, link: usize, scope: &Scope, wanted: Wanted) -> Option<u64>
        requires { link < 441 }
        ensures { IsOldest (λ k. IsOver link (slice_get self.now.cluster.sent k))
            (is_wanted self.now.fates self.now.cluster.sent scope.now wanted) result }
    {
        if self.is_shut(link, wanted) {
            return None;
        }
        let end = self.under_way.end(link);
        let mut number = self.under_way.first(link);
        while number < end {
            if self.is_wanted(scope, wanted, number) {
                return Some(number);
            }
            number = self.under_way.after(link, number);
        }
        None
    }

    /// Whether parcels over a link are listed, and none of them is wanted, as the link is cut.
    fn is_shut(&self, link: usize, wanted: Wanted) -> bool
        requires { link < 441 }
        ensures { IsTrue result → (scope : Scope) (k : ℕ)
            → IsOver link (slice_get self.now.cluster.sent k)
            → is_wanted self.now.fates self.now.cluster.sent scope wanted k ≡ false }
    {
        match wanted {
            Wanted::Arriving if self.under_way.first(link) < self.under_way.end(link) => {
                let (from, to) = ends(link);
                self.in_flight.is_cut(from, to)
            }
            _ => false,
        }
    }

    fn is_wanted(&self, scope: &Scope, wanted: Wanted, number: u64) -> bool
        ensures { result
            ≡ is_wanted self.now.fates self.now.cluster.sent scope.now wanted number }
    {
        self.in_flight
            .is_wanted(&self.cluster, scope, wanted, number)
    }
}
