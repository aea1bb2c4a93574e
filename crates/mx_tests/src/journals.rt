//! Journals: the records that they take, refuse and lack, and how they merge.

use crate::given::{entries, entry, journal_of};
use mx_journal::{
    Base, BaseFault, Cell, Draft, Full, Journal, Put, PutFault, Range, Record, SettleFault,
};
use mx_merge::{MergeFault, agree, answer, merge, missing};
use mx_registers::view;
use std::alloc::Global;
use std::process::Abort;
use std::test::Fail;

/// Returns whether these are the records of these numbers, and each writes its number.
fn bear(records: &[Record], numbers: &[u64]) -> bool {
    for (record, number) in records.iter().zip(numbers) {
        if !record.is(&entry(*number, &[(0, *number)])) {
            return false;
        }
    }
    records.len() == numbers.len()
}

/// Returns whether a journal has exactly the records of these numbers above its base, all below 10.
fn is_of(journal: &Journal, numbers: &[u64]) -> bool {
    let all = journal.records_in(Range { first: 1, last: 9 });
    bear(all.as_slice(), numbers) && journal.len() == numbers.len()
}

/// Returns the number of records of a journal, the greatest number, and the last before the first
/// gap.
fn extent(journal: &Journal) -> (usize, u64, u64) {
    (journal.len(), journal.top(), journal.gapless_to())
}

/// Numbers and values of records that are put together, the result, and how many records the
/// journal has then.
type Puts = (&'static [(u64, u64)], Result<u64, PutFault>, usize);

const PUTS: [Puts; 5] = [
    (&[(1, 1), (2, 2)], Ok(2), 2),
    (&[(3, 3), (2, 9)], Err(PutFault::Conflict(2)), 2),
    (&[(2, 9), (0, 0)], Err(PutFault::ZeroNumber), 2),
    (&[(4, 1), (4, 2)], Err(PutFault::Conflict(4)), 2),
    (&[(3, 3), (3, 3), (1, 1)], Ok(1), 3),
];

#[test]
fn put_all_or_none(rt: HostRuntime) -> Result<(), Fail> {
    let mut journal = Journal::new(rt.alloc());
    for (pairs, result, count) in &PUTS {
        let list = entries(rt.alloc(), *pairs)?;
        assert!(rt; journal.put_all(list.as_slice()) == *result && journal.len() == *count);
    }
    let rest = journal.records_in(Range { first: 2, last: 9 });
    assert!(rt; bear(rest.as_slice(), &[2, 3]));
    assert!(rt; journal.records_in(Range { first: 3, last: 2 }).is_empty());
    Ok(())
}

const LACKED: [Range; 2] = [Range { first: 4, last: 4 }, Range { first: 6, last: 6 }];

/// Returns whether a journal of 1, 2 and 5 merges with one of 2 and 3.
fn merges(journal: &mut Journal, other: &Journal) -> bool {
    agree(journal, other) && merge(journal, other) == Ok(1) && extent(journal) == (4, 5, 3)
}

/// Returns whether a journal of 1, 2, 3 and 5 tells what it lacks, and answers what it is asked.
fn answers(journal: &Journal) -> bool {
    missing(journal, 6).as_slice() == LACKED.as_slice()
        && missing(journal, 0).is_empty()
        && bear(
            answer(journal, &[Range { first: 2, last: 4 }]).as_slice(),
            &[2, 3],
        )
}

fn differing(alloc: Global) -> Result<Journal, Fail> {
    let mut journal = Journal::new(alloc);
    journal.put(entry(2, &[(0, 9)]))?;
    Ok(journal)
}

/// Returns whether a journal of 1, 2, 3 and 5 refuses another record 2, and one of number 0.
fn refuses(journal: &mut Journal, differing: &Journal) -> bool {
    merge(journal, differing) == Err(MergeFault::Conflict(2))
        && journal.put(entry(2, &[(0, 2)])) == Ok(Put::Same)
        && journal.put(entry(0, &[(0, 2)])) == Err(PutFault::ZeroNumber)
        && is_of(journal, &[1, 2, 3, 5])
}

fn merge_as_stated(rt: &impl Abort, alloc: Global, journal: &mut Journal) -> Result<(), Fail> {
    let other = journal_of(alloc, &[2, 3])?;
    assert!(rt; merges(journal, &other));
    assert!(rt; answers(journal));
    let differing = differing(alloc)?;
    assert!(rt; refuses(journal, &differing));
    Ok(())
}

#[test]
fn merge_and_missing(rt: HostRuntime) -> Result<(), Fail> {
    let mut journal = journal_of(rt.alloc(), &[1, 2, 5])?;
    merge_as_stated(&rt, rt.alloc(), &mut journal)
}

/// Returns the result of `take_base` of sections 1 to `upto`. The last of them wrote this value to
/// register 0.
fn taken(journal: &mut Journal, upto: u64, value: u64) -> Option<Result<u64, BaseFault>> {
    let mut cells = [Cell::default(); 32];
    cells[0] = Cell {
        value,
        number: upto,
    };
    Some(journal.take_base(&Base::of(upto, cells)?))
}

/// Settles a journal of 1, 2, 3 and 5.
fn settle(rt: &impl Abort, journal: &mut Journal) {
    assert!(rt; journal.settle(2) == Ok(()) && extent(journal) == (2, 5, 3));
    assert!(rt; missing(journal, 6).as_slice() == LACKED.as_slice());
    assert!(rt; journal.settle(1) == Err(SettleFault::Below(2)));
    assert!(rt; journal.settle(4) == Err(SettleFault::Gap(4)));
    assert!(rt; journal.put(entry(2, &[(0, 9)])) == Ok(Put::Same) && is_of(journal, &[3, 5]));
    assert!(rt; journal.settle(3) == Ok(()) && extent(journal) == (1, 5, 3));
}

fn is_settled(journal: &Journal) -> bool {
    let shown = view(journal, 1);
    journal.base().upto() == 3
        && is_of(journal, &[5])
        && (shown.value(0), shown.written_by(0)) == (Some(5), Some(5))
}

#[test]
fn settle_and_take_base(rt: HostRuntime) -> Result<(), Fail> {
    let mut settled = journal_of(rt.alloc(), &[1, 2, 3, 5])?;
    settle(&rt, &mut settled);
    let mut journal = journal_of(rt.alloc(), &[2, 3])?;
    assert!(rt; merge(&mut journal, &settled) == Ok(2) && is_settled(&journal));
    assert!(rt; taken(&mut journal, 3, 9) == Some(Err(BaseFault::Conflict(3))));
    assert!(rt; taken(&mut journal, 2, 2) == Some(Ok(0)));
    assert!(rt; is_settled(&journal) && journal.base().is(settled.base()));
    Ok(())
}

fn takes_halves(journal: &mut Journal, rest: u64) -> bool {
    for number in 1..=1000 {
        if number % 2 == rest && journal.put(entry(number, &[(0, number)])) != Ok(Put::New) {
            return false;
        }
    }
    true
}

fn lacks_even(journal: &Journal) -> bool {
    for (gap, half) in missing(journal, 16).as_slice().iter().zip(1u64..9) {
        let even = half.wrapping_mul(2);
        if gap.first != even || gap.last != even {
            return false;
        }
    }
    missing(journal, 16).len() == 8
}

#[test]
fn odd_then_even_numbers(rt: HostRuntime) {
    let mut journal = Journal::new(rt.alloc());
    assert!(rt; takes_halves(&mut journal, 1) && extent(&journal) == (500, 999, 1));
    assert!(rt; lacks_even(&journal));
    assert!(rt; takes_halves(&mut journal, 0) && extent(&journal) == (1000, 1000, 1000));
    assert!(rt; missing(&journal, 1000).is_empty());
}

#[test]
fn draft_takes_eight_writes(rt: HostRuntime) {
    let mut draft = Draft::new();
    for value in 0..8 {
        assert!(rt; draft.write(0, value) == Ok(()));
    }
    assert!(rt; draft.write(0, 8) == Err(Full));
}
