//! Waiting requests, if there are any.

ghost use Rattle.std.specs.Prelude.{◌≡◌};
ghost use Rattle.mx_maekawa.specs.ArbiterStep.{lesser, is_later, is_below, or_else, drop_up_to};

use mx_stamps::Stamp;

pub(crate) fn lesser(least: &Option<Stamp>, other: &Option<Stamp>) -> Option<Stamp>
    ensures { result ≡ lesser least.now other.now }
{
    match (*least, *other) {
        (None, other) => other,
        (Some(least), None) => Some(least),
        (Some(least), Some(other)) => Some(if other.is_before(&least) {
            other
        } else {
            least
        }),
    }
}

pub(crate) fn is_later(request: &Option<Stamp>, stamp: &Stamp) -> bool
    ensures { result ≡ is_later request.now stamp.now }
{
    match request {
        None => false,
        Some(request) => request.node.get() == stamp.node.get() && stamp.is_before(request),
    }
}

pub(crate) fn is_below(request: &Option<Stamp>, stamp: &Stamp) -> bool
    ensures { result ≡ is_below request.now stamp.now }
{
    match request {
        None => false,
        Some(request) => request.is_before(stamp),
    }
}

pub(crate) fn or_else(request: &Option<Stamp>, stamp: &Stamp) -> Option<Stamp>
    ensures { result ≡ or_else request.now stamp.now }
{
    Some(request.unwrap_or(*stamp))
}

pub(crate) fn drop_up_to(request: &Option<Stamp>, number: u64) -> Option<Stamp>
    ensures { result ≡ drop_up_to request.now number }
{
    match *request {
        Some(request) if request.number > number => Some(request),
        _ => None,
    }
}
