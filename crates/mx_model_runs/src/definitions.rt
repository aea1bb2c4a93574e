//! Histories and journals that the definitions of the promise refuse, and a fact about journals
//! that have settled nothing.

ghost use Rattle.mx_model_runs.specs.Definitions.{MapsJoin, RefusesHistories, RefusesJournals};

/// Proves, by small examples, that the definitions of the promise refuse wrong histories: two nodes
/// inside together, a wrong number, or a read or a receipt that differs from what was written.
pub fn histories_refused()
    ensures { RefusesHistories }
{}

/// Proves, by small examples, that the definitions of the promise refuse a journal or a read with a
/// value that was not written, and a join of two maps of records that is not the least above both.
pub fn journals_refused()
    ensures { RefusesJournals }
{}

/// Proves that two journals that agree and have settled nothing merge as maps of records: the
/// result is the least map above both.
pub fn maps_join()
    ensures { MapsJoin }
{}
