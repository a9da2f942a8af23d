//! Chains of revision numbers, records and entries.
ghost use Rattle.std.specs.Prelude.{◌≡◌};
ghost use Rattle.std.specs.List.{list_all};
ghost use Rattle.txn_record.specs.Chain.{has_room};

use doc_value::{OutOfMemory, Value, read_value};
use sqlite_items::Items;
use std::alloc::Global;
use std::test::Fail;
use txn_key::TxnId;
use txn_record::{Chained, Entry, Ops, Outcome, Record, State, chain, has_room};

/// Operations, the number that each key begins at, the number that each operation finds, and the number where
/// each key ends.
static CHAINS: [(&str, &[i64], &[i64], &[i64]); 8] = [
    (
        r#"[{"c":"k","d":1,"i":{}},{"c":"k","d":1,"u":{"$set":{"v":1}}},{"c":"k","d":1,"r":true}]"#,
        &[-1],
        &[-1, 2, 3],
        &[-4],
    ),
    (
        r#"[{"c":"k","d":1,"u":{"$set":{"v":1}}},{"c":"k","d":1,"r":true},{"c":"k","d":1,"i":{}}]"#,
        &[-3],
        &[-3, -3, -3],
        &[4],
    ),
    (
        r#"[{"c":"k","d":1,"i":{}},{"a":"d+","c":"k","d":1},{"c":"k","d":1,"r":true},{"c":"k","d":1,"r":true}]"#,
        &[0],
        &[0, 0, 0, -1],
        &[-1],
    ),
    (
        r#"[{"c":"k","d":2,"u":{"$set":{"v":1}}},{"c":"k","d":1,"u":{"$set":{"v":1}}},{"c":"k","d":2,"r":true},{"c":"k","d":2,"i":{}}]"#,
        &[0, 5],
        &[5, 0, 6, -7],
        &[1, 8],
    ),
    (
        r#"[{"c":"l","d":"a","u":{"$set":{"v":1}}},{"c":"k","d":-5,"r":true},{"c":"k","d":"z","u":{"$set":{"v":1}}},{"a":"d-","c":"k","d":9}]"#,
        &[7, 40, -2, 1],
        &[1, 40, 7, -2],
        &[8, -41, -2, 2],
    ),
    (
        r#"[{"c":"k","d":1,"u":{"$set":{"v":1}}}]"#,
        &[4611686018427386903],
        &[4611686018427386903],
        &[4611686018427386904],
    ),
    (
        r#"[{"c":"k","d":1,"i":{}}]"#,
        &[-4611686018427386903],
        &[-4611686018427386903],
        &[4611686018427386904],
    ),
    (
        r#"[{"c":"k","d":1,"r":true}]"#,
        &[4611686018427386903],
        &[4611686018427386903],
        &[-4611686018427386904],
    ),
];

/// States with their numbers, and whether they are settled and decided.
static STATES: [(State, u8, bool, bool); 6] = [
    (State::Preparing, 1, false, false),
    (State::Prepared, 2, false, true),
    (State::Aborting, 3, true, true),
    (State::Applying, 4, false, true),
    (State::Aborted, 5, true, true),
    (State::Applied, 6, true, true),
];

fn read_ops(alloc: Global, json: &str) -> Result<Ops, Fail> {
    let value = read_value(alloc, json.as_bytes())?;
    Ok(Ops::read(alloc, &value).ok().ok_or("no operations")?)
}

fn all_have_room(numbers: &[i64]) -> bool
    ensures { result ≡ list_all has_room numbers.now }
{
    numbers.iter().all(|number| has_room(*number))
}

fn chained(alloc: Global, ops: &Ops, first: &[i64]) -> Result<Chained, Fail> {
    if first.len() != ops.keys(alloc)?.len() || !all_have_room(first) {
        return Err("no first numbers".into());
    }
    Ok(chain(alloc, ops, first)?.copy(alloc)?)
}

fn is_chain(
    alloc: Global,
    json: &str,
    first: &[i64],
    found: &[i64],
    last: &[i64],
) -> Result<bool, Fail> {
    let ops = read_ops(alloc, json)?;
    let chained = chained(alloc, &ops, first)?;
    Ok(chained.found.as_slice() == found && chained.last.as_slice() == last)
}

#[test]
fn chains_are_followed(rt: HostRuntime) -> Result<(), Fail> {
    for (json, first, found, last) in &CHAINS {
        assert!(rt; is_chain(rt.alloc(), json, first, found, last)?, "{json}");
    }
    Ok(())
}

fn copied_record(alloc: Global, state: State, ops: Ops) -> Result<Record, OutOfMemory> {
    let record = Record {
        id: TxnId([7; 12]),
        state,
        info: Some(Value::Int(1)),
        ops,
        nonce: Some(3),
        revnos: Some(Items::from_slice(alloc, &[0])?),
    };
    record.copy(alloc)
}

fn copied_entry(alloc: Global, ops: Ops) -> Result<Entry, OutOfMemory> {
    let entry = Entry {
        id: TxnId([7; 12]),
        ops,
        outcome: Outcome::Applied,
        revnos: Items::from_slice(alloc, &[4])?,
        at: 9,
    };
    entry.copy(alloc)
}

#[test]
fn records_and_entries_are_copied(rt: HostRuntime) -> Result<(), Fail> {
    let json = r#"[{"c":"k","d":7,"u":{"$set":{"v":1}}}]"#;
    for (state, number, settled, decided) in STATES {
        let record = copied_record(rt.alloc(), state, read_ops(rt.alloc(), json)?)?;
        assert!(rt; state.number() == number);
        assert!(rt; record.is_settled() == settled && record.is_decided() == decided);
    }
    let entry = copied_entry(rt.alloc(), read_ops(rt.alloc(), json)?)?;
    assert!(rt; entry.revnos.as_slice() == [4].as_slice());
    Ok(())
}
