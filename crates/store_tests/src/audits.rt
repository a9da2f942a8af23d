//! Audits of worked stores: one that breaks each rule, and sound ones of every kind.
use crate::parts::{opened, read};
use doc_value::push_value;
use std::alloc::Global;
use std::cmp::Ordering;
use std::test::Fail;
use store_memory::SilentStore;
use txn_audit::{AuditError, audit, check, list_cells};
use txn_key::Docs;

const NO_DRAW: &str = r#"{"cell":"nonce","is":{"next":0}}"#;

const DRAWN_TWO: &str = r#"{"cell":"nonce","is":{"next":2}}"#;

const PLAIN: &str = r#"{"c":"k","cell":"doc","is":{"_id":"a","v":0}}"#;

const NEGATIVE: &str = r#"{"c":"k","cell":"doc","is":{"_id":"a","txn-revno":-1,"v":0}}"#;

const OF_NOBODY: &str =
    r#"{"c":"k","cell":"doc","is":{"_id":"a","txn-queue":["000000000000000000000009_00000000"],"v":0}}"#;

const QUEUED: &str =
    r#"{"c":"k","cell":"doc","is":{"_id":"a","txn-queue":["000000000000000000000001_00000000"],"v":0}}"#;

const BOTH_QUEUED: &str =
    r#"{"c":"k","cell":"doc","is":{"_id":"a","txn-queue":["000000000000000000000001_00000000","000000000000000000000002_00000001"],"v":0}}"#;

const BOTH_QUEUED_LATER: &str =
    r#"{"c":"k","cell":"doc","is":{"_id":"a","txn-queue":["000000000000000000000001_00000000","000000000000000000000002_00000001"],"txn-revno":1,"v":2}}"#;

const MARKED: &str =
    r#"{"c":"k","cell":"doc","is":{"_id":"a","txn-queue":["000000000000000000000001_00000000"],"txn-remove":"000000000000000000000001_00000000","v":0}}"#;

const AT_TWO: &str = r#"{"c":"k","cell":"doc","is":{"_id":"a","txn-revno":2,"v":0}}"#;

const OUTDATED: &str = r#"{"cell":"stash","is":{"_id":{"c":"k","d":"a"},"txn-revno":-1}}"#;

const AT_FIVE: &str =
    r#"{"c":"k","cell":"doc","is":{"_id":"a","txn-queue":["000000000000000000000001_00000000"],"txn-revno":5,"v":0}}"#;

const OF_TEXT: &str =
    r#"{"c":"k","cell":"doc","is":{"_id":"a","txn-queue":["000000000000000000000001_00000000"],"v":"x"}}"#;

const STASHED: &str =
    r#"{"cell":"stash","is":{"_id":{"c":"k","d":"b"},"txn-queue":["000000000000000000000001_00000007"],"txn-revno":-3}}"#;

const REMOVED: &str =
    r#"{"cell":"record","is":{"_id":"000000000000000000000001","n":"00000000","o":[{"c":"k","d":"b","r":true}],"r":[2],"s":6}}"#;

const STARTED: &str =
    r#"{"cell":"record","is":{"_id":"000000000000000000000001","o":[{"c":"k","d":"a","u":{"$set":{"v":1}}}],"s":1}}"#;

const PREPARED: &str =
    r#"{"cell":"record","is":{"_id":"000000000000000000000001","n":"00000000","o":[{"c":"k","d":"a","u":{"$set":{"v":1}}}],"s":2}}"#;

const APPLYING: &str =
    r#"{"cell":"record","is":{"_id":"000000000000000000000001","n":"00000000","o":[{"c":"k","d":"a","u":{"$set":{"v":1}}}],"r":[0],"s":4}}"#;

const ADDING: &str =
    r#"{"cell":"record","is":{"_id":"000000000000000000000001","n":"00000000","o":[{"c":"k","d":"a","u":{"$inc":{"v":1}}}],"r":[0],"s":4}}"#;

const OTHER_APPLYING: &str =
    r#"{"cell":"record","is":{"_id":"000000000000000000000002","n":"00000001","o":[{"c":"k","d":"a","u":{"$set":{"v":2}}}],"r":[0],"s":4}}"#;

const OTHER_APPLIED: &str =
    r#"{"cell":"record","is":{"_id":"000000000000000000000002","n":"00000001","o":[{"c":"k","d":"a","u":{"$set":{"v":2}}}],"r":[0],"s":6}}"#;

const DRAWN_EIGHT: &str = r#"{"cell":"nonce","is":{"next":8}}"#;

/// Cells, of which the last one is at fault, and the rule that it breaks.
const BROKEN: [(&[&str], u8); 10] = [
    (&[DRAWN_TWO, NEGATIVE], 1),
    (&[DRAWN_TWO, OF_NOBODY], 2),
    (&[NO_DRAW, QUEUED, PREPARED], 3),
    (&[DRAWN_TWO, PLAIN, PREPARED], 4),
    (&[DRAWN_TWO, BOTH_QUEUED, PREPARED, OTHER_APPLYING], 5),
    (&[DRAWN_TWO, BOTH_QUEUED_LATER, STARTED, OTHER_APPLIED], 6),
    (&[DRAWN_TWO, APPLYING, MARKED], 7),
    (&[DRAWN_TWO, AT_TWO, OUTDATED], 8),
    (&[DRAWN_TWO, AT_FIVE, APPLYING], 9),
    (&[DRAWN_TWO, OF_TEXT, ADDING], 10),
];

const REMOVING: &str =
    r#"{"cell":"record","is":{"_id":"000000000000000000000001","n":"00000000","o":[{"c":"k","d":"a","r":true}],"r":[0],"s":4}}"#;

const INSERTING: &str =
    r#"{"cell":"record","is":{"_id":"000000000000000000000001","n":"00000000","o":[{"c":"k","d":"a","i":{"v":1}}],"r":[-1],"s":4}}"#;

const MARKED_STASH: &str =
    r#"{"cell":"stash","is":{"_id":{"c":"k","d":"a"},"txn-insert":"000000000000000000000001_00000000","txn-queue":["000000000000000000000001_00000000"],"txn-revno":-1}}"#;

const RING_LEAST: &str =
    r#"{"cell":"record","is":{"_id":"000000000000000000000001","n":"00000000","o":[{"c":"k","d":"a","u":{"$set":{"v":1}}},{"c":"k","d":"b","u":{"$set":{"v":1}}}],"r":[0,0],"s":4}}"#;

const RING_OTHER: &str =
    r#"{"cell":"record","is":{"_id":"000000000000000000000002","n":"00000001","o":[{"c":"k","d":"a","u":{"$set":{"v":2}}},{"c":"k","d":"b","u":{"$set":{"v":2}}}],"s":2}}"#;

const RING_A: &str =
    r#"{"c":"k","cell":"doc","is":{"_id":"a","txn-queue":["000000000000000000000002_00000001","000000000000000000000001_00000000"],"v":0}}"#;

const RING_B: &str =
    r#"{"c":"k","cell":"doc","is":{"_id":"b","txn-queue":["000000000000000000000001_00000000","000000000000000000000002_00000001"]}}"#;

/// A document that was inserted late, after its key was removed: it doesn't own the key.
const LATE: &str =
    r#"{"c":"k","cell":"doc","is":{"_id":"a","t":"old","txn-queue":["000000000000000000000001_00000000"],"txn-revno":2}}"#;

const LATE_STASH: &str =
    r#"{"cell":"stash","is":{"_id":{"c":"k","d":"a"},"txn-queue":["000000000000000000000002_00000001"],"txn-revno":-3}}"#;

const WAS_INSERTED: &str =
    r#"{"cell":"record","is":{"_id":"000000000000000000000001","n":"00000000","o":[{"c":"k","d":"a","i":{"t":"old"}}],"r":[-1],"s":6}}"#;

const WAS_REMOVED: &str =
    r#"{"cell":"record","is":{"_id":"000000000000000000000002","n":"00000001","o":[{"c":"k","d":"a","r":true}],"r":[2],"s":6}}"#;

/// Stores in the middle of work, each with the bodies of the documents that it means: nothing, documents alone,
/// a prepared and an applying update, a token whose nonce was lost, a marked removal and insertion, a ring whose
/// least member is applying, and a late document.
const SOUND: [(&[&str], &str); 9] = [
    (&[], ""),
    (&[PLAIN], r#"{"v":0}"#),
    (&[DRAWN_TWO, QUEUED, PREPARED], r#"{"v":0}"#),
    (&[DRAWN_TWO, QUEUED, APPLYING], r#"{"v":1}"#),
    (&[DRAWN_EIGHT, STASHED, REMOVED], ""),
    (&[DRAWN_TWO, MARKED, REMOVING], ""),
    (&[DRAWN_TWO, MARKED_STASH, INSERTING], r#"{"v":1}"#),
    (
        &[DRAWN_TWO, RING_LEAST, RING_OTHER, RING_A, RING_B],
        r#"{"v":1}{"v":1}"#,
    ),
    (
        &[DRAWN_TWO, WAS_INSERTED, WAS_REMOVED, LATE, LATE_STASH],
        "",
    ),
];

pub(crate) fn fault(alloc: Global, store: &mut SilentStore) -> Option<AuditError> {
    audit(alloc, store).err()
}

/// The rule that cells break, if it is at the name of the last of them.
fn broken(alloc: Global, lines: &[&str]) -> Result<u8, Fail> {
    let mut store = opened(alloc, lines)?;
    let last = lines.last().copied().ok_or("no cell")?;
    let name = read(alloc, last)?.name;
    match fault(alloc, &mut store) {
        Some(AuditError::Unsound { rule, name: at }) => {
            let here = at.compare(&name) == Ordering::Equal;
            Ok(if here { rule } else { 0 })
        }
        _ => Ok(0),
    }
}

/// The bodies, in the order of their keys.
fn bodies(alloc: Global, docs: &Docs) -> Result<String, Fail> {
    let mut text = Vec::new(alloc);
    for doc in docs.as_slice() {
        push_value(&mut text, &doc.body)?;
    }
    Ok(String::from_utf8(text).ok().ok_or("no text")?)
}

/// What a store of these cells means, as its audit says, and as its cells do.
fn meanings(alloc: Global, lines: &[&str]) -> Result<(String, String), Fail> {
    let mut store = opened(alloc, lines)?;
    let checked = audit(alloc, &mut store).ok().ok_or("not sound")?;
    let cells = list_cells(alloc, &mut store).ok().ok_or("not listed")?;
    let docs = check(alloc, cells.as_slice()).ok().ok_or("not sound")?;
    Ok((bodies(alloc, &checked.docs)?, bodies(alloc, &docs)?))
}

#[test]
fn each_rule_is_found_broken(rt: HostRuntime) -> Result<(), Fail> {
    for (lines, rule) in BROKEN {
        assert_eq!(rt; broken(rt.alloc(), lines)?, rule, "{rule}");
    }
    Ok(())
}

#[test]
fn sound_stores_pass(rt: HostRuntime) -> Result<(), Fail> {
    for (lines, meant) in SOUND {
        let (audited, checked) = meanings(rt.alloc(), lines)?;
        assert_eq!(rt; audited.as_str(), meant);
        assert_eq!(rt; checked.as_str(), meant);
    }
    Ok(())
}
