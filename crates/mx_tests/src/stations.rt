//! The two stations of a small cluster.

ghost use Rattle.std.specs.Prelude.{IfOk, IfSome, List, [], ◌∷◌, ◌++◌, ◌≡◌};
ghost use Rattle.mx_stations.specs.Gathered.{KeepsTable};

use mx_ricart::{Count, Ricart};
use mx_stations::{Field, Station};
use std::alloc::Global;
use std::test::Fail;

pub(crate) fn last<T: Drop>(mut all: Vec<T>) -> Option<T>
    ensures { IfSome result (λ one. (left : List T) × (all.items ≡ left ++ one ∷ [])) }
{
    let one = all.pop()?;
    Some(one)
}

pub(crate) fn last_two<T: Drop>(mut all: Vec<T>) -> Option<(T, T)>
    ensures { IfSome result (λ both. (more : List T) × (left : List T)
        × (all.items ≡ more ++ both.1 ∷ []) × (more ≡ left ++ both.0 ∷ [])) }
{
    let last = all.pop()?;
    let next = all.pop()?;
    Some((next, last))
}

pub(crate) fn two(alloc: Global) -> Result<(Station<Ricart>, Station<Ricart>), Fail>
    ensures { IfOk result (λ both. KeepsTable both.0 both.1) }
{
    let shape = Count::of(2).ok_or("count")?;
    let all = Field::<Ricart>::stations(alloc, &shape, 0, 1000, 1)?;
    match last_two(all) {
        Some(both) => Ok(both),
        None => Err("not two stations")?,
    }
}
