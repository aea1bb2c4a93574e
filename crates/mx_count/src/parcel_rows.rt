//! The rows of parcels, by kind.

ghost use Rattle.std.specs.Prelude.{◌≡◌, ◌++◌, [], ◌∷◌, OnOk, map};
ghost use Rattle.std.specs.List.{count_by};
ghost use Rattle.mx_format.specs.Parts.{word_by};
ghost use Rattle.mx_count.specs.Counted.{counted, kind_row, parcel_rows};
ghost use Rattle.mx_count.specs.Kinds.{is_in};
ghost use Rattle.mx_count.specs.Rows.{rows_of};

use crate::kinds::{Group, is_in};
use crate::rows::{Level, Row, Value, add_row};
use mx_format::Letter;
use mx_network::Cluster;
use mx_nodelaws::Exclusion;
use std::alloc::AllocError;

/// Adds the rows of letters and their kinds, of letters from nodes to themselves, and of gossip and
/// its kinds.
pub(crate) fn add_parcel_rows<C: Exclusion>(
    cluster: &Cluster<C>,
    rows: &mut Vec<Row<'_>>,
) -> Result<(), AllocError>
where
    C::Msg: Letter,
    ensures { OnOk result (rows_of rows.new.items ≡ rows_of rows.old.items
        ++ parcel_rows (word_by C.Msg.parts) C.Msg.words cluster.now.sent) }
{
    add_group(cluster, Level::Part, "letters", &Group::Letters, rows)?;
    add_kinds(cluster, C::Msg::words(), rows)?;
    add_group(cluster, Level::Part, "own", &Group::Own, rows)?;
    add_group(cluster, Level::Part, "gossip", &Group::Gossip, rows)?;
    add_group(cluster, Level::Kind, "want", &Group::Want, rows)?;
    add_group(cluster, Level::Kind, "base", &Group::Base, rows)?;
    add_group(cluster, Level::Kind, "records", &Group::Records, rows)
}

fn add_kinds<C: Exclusion>(
    cluster: &Cluster<C>,
    words: &[&'static str],
    rows: &mut Vec<Row<'_>>,
) -> Result<(), AllocError>
where
    C::Msg: Letter,
    ensures { OnOk result (rows_of rows.new.items ≡ rows_of rows.old.items
        ++ map (kind_row (word_by C.Msg.parts) cluster.now.sent) (map (λ word. word.now) words.now)) }
{
    for word in words {
        add_group(cluster, Level::Kind, *word, &Group::Kind(*word), rows)?;
    }
    Ok(())
}

fn add_group<'a, C: Exclusion>(
    cluster: &Cluster<C>,
    level: Level,
    name: &'a str,
    group: &Group<'_>,
    rows: &mut Vec<Row<'a>>,
) -> Result<(), AllocError>
where
    C::Msg: Letter,
    ensures { OnOk result (rows_of rows.new.items ≡ rows_of rows.old.items
        ++ counted level name.now (is_in (word_by C.Msg.parts) group.now) cluster.now.sent ∷ []) }
{
    let count = count_parcels(cluster, group);
    add_row(level, name, Value::Number(count), rows)
}

pub(crate) fn count_parcels<C: Exclusion>(cluster: &Cluster<C>, group: &Group<'_>) -> u64
where
    C::Msg: Letter,
    ensures { result ≡ count_by (is_in (word_by C.Msg.parts) group.now) cluster.now.sent }
{
    // for the prover: the call shows that the number of parcels fits
    let _ = cluster.sent();
    let mut count = 0;
    for (_, sent) in cluster.parcels_from(0) {
        count += u64::from(is_in(group, &sent));
    }
    count
}
