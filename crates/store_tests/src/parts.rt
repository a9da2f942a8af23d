//! The first parts of a runner on worked cells, over a store that tells nothing of them.
use cell_text::read_cell_text;
use doc_value::read_value;
use flush_prepare::{Prepare, PrepareStep, Scan, ScanStep, StepError};
use sqlite_items::Items;
use std::alloc::Global;
use std::test::Fail;
use store_memory::{MemoryStore, SilentStore};
use store_trait::{Edit, Named, Store};
use txn_key::{Token, TxnId};
use txn_record::{Record, State};

const FIRST: TxnId = TxnId([0, 0, 0, 0, 0, 0, 0, 0, 0, 0, 0, 1]);

const SECOND: TxnId = TxnId([0, 0, 0, 0, 0, 0, 0, 0, 0, 0, 0, 2]);

/// A record whose token stands in the queue, with a nonce that was drawn before it stopped.
const STOPPED: &str =
    r#"{"cell":"record","is":{"_id":"000000000000000000000001","o":[{"c":"k","d":"x","u":{"$set":{"v":1}}}],"s":1}}"#;

const STOPPED_DOC: &str =
    r#"{"c":"k","cell":"doc","is":{"_id":"x","txn-queue":["000000000000000000000001_00000000"],"v":0}}"#;

const PREPARED: &str =
    r#"{"cell":"record","is":{"_id":"000000000000000000000001","n":"00000001","o":[{"c":"k","d":"x","u":{"$set":{"v":1}}}],"s":2}}"#;

const PREPARED_DOC: &str =
    r#"{"c":"k","cell":"doc","is":{"_id":"x","txn-queue":["000000000000000000000001_00000000","000000000000000000000001_00000001"],"v":0}}"#;

/// A removal that was marked and no more.
const REMOVES: &str =
    r#"{"cell":"record","is":{"_id":"000000000000000000000001","n":"00000000","o":[{"c":"items","d":"x","r":true}],"r":[0],"s":4}}"#;

const MARKED_DOC: &str =
    r#"{"c":"items","cell":"doc","is":{"_id":"x","t":"a","txn-queue":["000000000000000000000001_00000000"],"txn-remove":"000000000000000000000001_00000000"}}"#;

const INSERTS: &str =
    r#"{"cell":"record","is":{"_id":"000000000000000000000002","o":[{"a":"d-","c":"items","d":"x","i":{"t":"b"}}],"s":1}}"#;

/// Two transactions, each before the other on one of two keys.
const RING_FIRST: &str =
    r#"{"cell":"record","is":{"_id":"000000000000000000000001","n":"00000000","o":[{"c":"k","d":"x","u":{"$set":{"v":1}}},{"c":"k","d":"y","u":{"$set":{"v":1}}}],"s":2}}"#;

const RING_SECOND: &str =
    r#"{"cell":"record","is":{"_id":"000000000000000000000002","n":"00000001","o":[{"c":"k","d":"x","u":{"$set":{"v":2}}},{"c":"k","d":"y","u":{"$set":{"v":2}}}],"s":2}}"#;

const RING_X: &str =
    r#"{"c":"k","cell":"doc","is":{"_id":"x","txn-queue":["000000000000000000000002_00000001","000000000000000000000001_00000000"],"v":0}}"#;

const RING_Y: &str =
    r#"{"c":"k","cell":"doc","is":{"_id":"y","txn-queue":["000000000000000000000001_00000000","000000000000000000000002_00000001"],"v":0}}"#;

const OTHER_ALONE: &str =
    r#"{"c":"k","cell":"doc","is":{"_id":"x","txn-queue":["000000000000000000000002_00000001"],"v":0}}"#;

const DRAWN_ONE: &str = r#"{"cell":"nonce","is":{"next":1}}"#;

const DRAWN_TWO: &str = r#"{"cell":"nonce","is":{"next":2}}"#;

const ALL_DRAWN: &str = r#"{"cell":"nonce","is":{"next":4294967295}}"#;

pub(crate) fn read(alloc: Global, line: &str) -> Result<Named, Fail> {
    let value = read_value(alloc, line.as_bytes())?;
    Ok(read_cell_text(alloc, &value).ok().ok_or("no cell")?)
}

pub(crate) fn record(alloc: Global, line: &str) -> Result<Record, Fail> {
    let named = read(alloc, line)?;
    Ok(named.cell.into_record().ok_or("no record")?)
}

fn place(alloc: Global, store: &mut SilentStore, line: &str) -> Result<bool, Fail> {
    let Named { name, cell } = read(alloc, line)?;
    let done = store.edit(alloc, &name, &Edit::Place { cell });
    Ok(done.ok().ok_or("store fault")?.hit)
}

pub(crate) fn opened(alloc: Global, lines: &[&str]) -> Result<SilentStore, Fail> {
    let mut store = SilentStore::over(MemoryStore::new(alloc, Vec::new(alloc))?);
    for line in lines {
        if !place(alloc, &mut store, line)? {
            return Err("not placed".into());
        }
    }
    Ok(store)
}

/// Whether the cell of a line stands in the store.
fn stands(alloc: Global, store: &mut SilentStore, line: &str) -> Result<bool, Fail> {
    let Named { name, cell } = read(alloc, line)?;
    match store.read(alloc, &name).ok().ok_or("store fault")? {
        Some(found) => Ok(found.equals(&cell)),
        None => Ok(false),
    }
}

/// A preparation of the record of a line.
pub(crate) fn preparation(alloc: Global, line: &str) -> Result<Prepare, Fail> {
    let rec = record(alloc, line)?;
    if !matches!(rec.state, State::Preparing) {
        return Err("not preparing".into());
    }
    Ok(Prepare::new(alloc, rec)?)
}

/// What ends a preparation of the record of a line.
pub(crate) fn prepare(
    alloc: Global,
    store: &mut SilentStore,
    line: &str,
) -> Result<Result<PrepareStep, StepError>, Fail> {
    let mut part = preparation(alloc, line)?;
    for _ in 0..6 {
        let answer = part.step(alloc, store);
        if !matches!(answer, Ok(PrepareStep::More)) {
            return Ok(answer);
        }
    }
    Err("no end".into())
}

/// What ends a scan for the record of a line.
fn scan(alloc: Global, store: &mut SilentStore, line: &str) -> Result<ScanStep, Fail> {
    let rec = record(alloc, line)?;
    if !rec.is_decided() {
        return Err("preparing".into());
    }
    let mut part = Scan::new(alloc, rec)?;
    for _ in 0..4 {
        let answer = part.step(alloc, store).ok().ok_or("refused")?;
        if !matches!(answer, ScanStep::More) {
            return Ok(answer);
        }
    }
    Err("no end".into())
}

fn nonce_of(step: PrepareStep) -> Option<u32> {
    match step {
        PrepareStep::Ready(rec) => rec.nonce,
        PrepareStep::Blocked(_id) => None,
        PrepareStep::More => None,
    }
}

fn blocking(step: PrepareStep) -> Option<TxnId> {
    match step {
        PrepareStep::Blocked(id) => Some(id),
        PrepareStep::Ready(_rec) => None,
        PrepareStep::More => None,
    }
}

fn found(step: ScanStep) -> Option<Items<Token>> {
    match step {
        ScanStep::Scanned(tokens) => Some(tokens),
        ScanStep::More => None,
        ScanStep::Gone => None,
    }
}

fn is_gone(step: ScanStep) -> bool {
    match step {
        ScanStep::Gone => true,
        ScanStep::More => false,
        ScanStep::Scanned(_tokens) => false,
    }
}

fn is_spent(error: StepError) -> bool {
    match error {
        StepError::NoncesSpent => true,
        _other => false,
    }
}

/// The token with the nonce that was lost stays where it is, and one with a nonce drawn anew comes behind it.
#[test]
fn a_stopped_preparation_is_made_again(rt: HostRuntime) -> Result<(), Fail> {
    let alloc = rt.alloc();
    let mut store = opened(alloc, &[STOPPED, STOPPED_DOC, DRAWN_ONE])?;
    let ready = prepare(alloc, &mut store, STOPPED)?.ok();
    assert!(rt; ready.and_then(nonce_of) == Some(1));
    assert!(rt; stands(alloc, &mut store, PREPARED)?);
    assert!(rt; stands(alloc, &mut store, PREPARED_DOC)?);
    Ok(())
}

#[test]
fn marks_block_and_nonces_end(rt: HostRuntime) -> Result<(), Fail> {
    let alloc = rt.alloc();
    let mut store = opened(alloc, &[REMOVES, INSERTS, MARKED_DOC, DRAWN_ONE])?;
    let blocked = prepare(alloc, &mut store, INSERTS)?.ok();
    assert!(rt; blocked.and_then(blocking) == Some(FIRST));
    let mut last = opened(alloc, &[STOPPED, STOPPED_DOC, ALL_DRAWN])?;
    let spent = prepare(alloc, &mut last, STOPPED)?.err();
    assert!(rt; spent.is_some_and(is_spent));
    Ok(())
}

/// Whether a scan finds the other's token alone, and none on a key that its own has left.
#[test]
fn scans_find_what_stands_before(rt: HostRuntime) -> Result<(), Fail> {
    let alloc = rt.alloc();
    let mut store = opened(alloc, &[RING_FIRST, RING_SECOND, RING_X, RING_Y, DRAWN_TWO])?;
    let tokens = found(scan(alloc, &mut store, RING_FIRST)?).ok_or("not scanned")?;
    let other = Token {
        id: SECOND,
        nonce: 1,
    };
    assert!(rt; tokens.as_slice() == [other].as_slice());
    let mut gone = opened(
        alloc,
        &[RING_FIRST, RING_SECOND, OTHER_ALONE, RING_Y, DRAWN_TWO],
    )?;
    assert!(rt; is_gone(scan(alloc, &mut gone, RING_FIRST)?));
    Ok(())
}
