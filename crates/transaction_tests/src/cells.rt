//! Cells as lines, and the names and entries that are printed.
use cell_text::{CellFault, cell_text, read_cell_text};
use doc_value::{DocId, Text, read_value};
use sqlite_items::Items;
use std::alloc::Global;
use std::test::Fail;
use store_trait::Named;
use txn_key::{Doc, Key, TxnId};
use txn_record::{Entry, Ops, Outcome};
use txn_script::{
    print_cell, print_doc, print_entry, print_name, push_cell, push_document, push_entry,
};

/// Cells as they are printed, and what they stand under.
static CELLS: [(&str, &str); 11] = [
    (
        r#"{"cell":"record","is":{"_id":"000000000000000000000001","i":{"x":[]},"n":"00000000","o":[{"c":"k","d":"a","u":{"$set":{"v":1}}}],"r":[0],"s":4}}"#,
        "record 000000000000000000000001",
    ),
    (
        r#"{"cell":"record","is":{"_id":"0000000000000000000000ff","i":null,"o":[{"a":"d-","c":"k","d":"a","i":{"t":"x"}},{"c":"l","d":-7,"r":true}],"s":1}}"#,
        "record 0000000000000000000000ff",
    ),
    (
        r#"{"cell":"record","is":{"_id":"000000000000000000000001","n":"ffffffff","o":[{"c":"k","d":"a","r":true}],"r":[-9223372036854775808,4],"s":6}}"#,
        "record 000000000000000000000001",
    ),
    (
        r#"{"c":"k","cell":"doc","is":{"_id":"a"}}"#,
        r#"doc "k" "a""#,
    ),
    (
        r#"{"c":"k","cell":"doc","is":{"A":0,"_id":7,"_x":{},"b":{"c":null,"txn-revno":1},"txn-queue":["000000000000000000000001_00000000","000000000000000000000002_00000001"],"txn-remove":"000000000000000000000001_00000000","txn-revno":7,"u":2}}"#,
        r#"doc "k" 7"#,
    ),
    (
        r#"{"c":"k","cell":"doc","is":{"_id":"a\"b","txn-revno":-1}}"#,
        r#"doc "k" "a\"b""#,
    ),
    (
        r#"{"cell":"stash","is":{"_id":{"c":"k","d":"a"},"txn-insert":"000000000000000000000002_00000001","txn-queue":["000000000000000000000002_00000001"],"txn-revno":-3}}"#,
        r#"stash "k" "a""#,
    ),
    (
        r#"{"cell":"stash","is":{"_id":{"c":"k","d":-1},"txn-revno":0}}"#,
        r#"stash "k" -1"#,
    ),
    (
        r#"{"cell":"stash","is":{"_id":{"c":"k","d":""},"txn-revno":9223372036854775807}}"#,
        r#"stash "k" """#,
    ),
    (r#"{"cell":"nonce","is":{"next":0}}"#, "nonce"),
    (r#"{"cell":"nonce","is":{"next":4294967295}}"#, "nonce"),
];

/// Cells that are written in another way, and as they are printed.
static OTHERWISE: [(&str, &str); 4] = [
    (
        r#"{"is":{"txn-revno":0,"txn-queue":[],"v":1,"_id":"a"},"c":"k","cell":"doc"}"#,
        r#"{"c":"k","cell":"doc","is":{"_id":"a","v":1}}"#,
    ),
    (
        r#"{"cell":"stash","is":{"txn-queue":[],"txn-revno":-1,"_id":{"d":1,"c":"k"}}}"#,
        r#"{"cell":"stash","is":{"_id":{"c":"k","d":1},"txn-revno":-1}}"#,
    ),
    (
        r#"{"cell":"record","is":{"s":2,"n":"0000000A","o":[{"r":false,"u":{"$set":{"v":1}},"d":"b","c":"k"},{"i":{"_id":"b","v":1},"d":"b","c":"k"}],"_id":"00000000000000000000000B"}}"#,
        r#"{"cell":"record","is":{"_id":"00000000000000000000000b","n":"0000000a","o":[{"c":"k","d":"b","u":{"$set":{"v":1}}},{"c":"k","d":"b","i":{"v":1}}],"s":2}}"#,
    ),
    (
        r#"{"cell":"doc","c":"k","is":{"_id":"b","txn-queue":["00000000000000000000000B_0000000A"]}}"#,
        r#"{"c":"k","cell":"doc","is":{"_id":"b","txn-queue":["00000000000000000000000b_0000000a"]}}"#,
    ),
];

/// Values that are no cells.
static NO_CELLS: [&str; 59] = [
    "null",
    "[]",
    "{}",
    r#"{"is":{}}"#,
    r#"{"cell":"nonce"}"#,
    r#"{"cell":"x","is":{"next":1}}"#,
    r#"{"cell":1,"is":{"next":1}}"#,
    r#"{"cell":"nonce","is":{"next":1},"x":1}"#,
    r#"{"c":"k","cell":"nonce","is":{"next":1}}"#,
    r#"{"cell":"nonce","is":[]}"#,
    r#"{"cell":"nonce","is":{}}"#,
    r#"{"cell":"nonce","is":{"next":1,"x":1}}"#,
    r#"{"cell":"nonce","is":{"next":"1"}}"#,
    r#"{"cell":"nonce","is":{"next":-1}}"#,
    r#"{"cell":"nonce","is":{"next":4294967296}}"#,
    r#"{"cell":"doc","is":{"_id":"a"}}"#,
    r#"{"c":"","cell":"doc","is":{"_id":"a"}}"#,
    r#"{"c":"_id","cell":"doc","is":{"_id":"a"}}"#,
    r#"{"c":1,"cell":"doc","is":{"_id":"a"}}"#,
    r#"{"c":"k","cell":"doc","is":[]}"#,
    r#"{"c":"k","cell":"doc","is":{"v":1}}"#,
    r#"{"c":"k","cell":"doc","is":{"_id":null}}"#,
    r#"{"c":"k","cell":"doc","is":{"_id":[]}}"#,
    r#"{"c":"k","cell":"doc","is":{"_id":"a"},"x":1}"#,
    r#"{"c":"k","cell":"doc","is":{"$v":1,"_id":"a"}}"#,
    r#"{"c":"k","cell":"doc","is":{"_id":"a","v":{"a.b":1}}}"#,
    r#"{"c":"k","cell":"doc","is":{"_id":"a","txn-x":1}}"#,
    r#"{"c":"k","cell":"doc","is":{"_id":"a","txn-insert":"000000000000000000000001_00000000"}}"#,
    r#"{"c":"k","cell":"doc","is":{"_id":"a","txn-revno":"1"}}"#,
    r#"{"c":"k","cell":"doc","is":{"_id":"a","txn-queue":"000000000000000000000001_00000000"}}"#,
    r#"{"c":"k","cell":"doc","is":{"_id":"a","txn-queue":[1]}}"#,
    r#"{"c":"k","cell":"doc","is":{"_id":"a","txn-queue":["000000000000000000000001"]}}"#,
    r#"{"c":"k","cell":"doc","is":{"_id":"a","txn-queue":["00000000000000000000000_00000000"]}}"#,
    r#"{"c":"k","cell":"doc","is":{"_id":"a","txn-queue":["000000000000000000000001_0000000"]}}"#,
    r#"{"c":"k","cell":"doc","is":{"_id":"a","txn-queue":["000000000000000000000001-00000000"]}}"#,
    r#"{"c":"k","cell":"doc","is":{"_id":"a","txn-remove":null}}"#,
    r#"{"c":"k","cell":"doc","is":{"_id":"a","txn-remove":"00000000000000000000000g_00000000"}}"#,
    r#"{"c":"k","cell":"stash","is":{"_id":{"c":"k","d":"a"},"txn-revno":-1}}"#,
    r#"{"cell":"stash","is":{"_id":{"c":"k","d":"a"}}}"#,
    r#"{"cell":"stash","is":{"_id":{"c":"k","d":"a"},"txn-revno":"-1"}}"#,
    r#"{"cell":"stash","is":{"_id":"a","txn-revno":-1}}"#,
    r#"{"cell":"stash","is":{"_id":{"c":"k"},"txn-revno":-1}}"#,
    r#"{"cell":"stash","is":{"_id":{"c":"k","d":"a","x":1},"txn-revno":-1}}"#,
    r#"{"cell":"stash","is":{"_id":{"c":"k","d":"a"},"txn-revno":-1,"v":1}}"#,
    r#"{"cell":"stash","is":{"_id":{"c":"k","d":"a"},"txn-remove":"000000000000000000000001_00000000","txn-revno":-1}}"#,
    r#"{"cell":"record","is":{"_id":"1","o":[{"c":"k","d":"a","r":true}],"s":1}}"#,
    r#"{"cell":"record","is":{"_id":1,"o":[{"c":"k","d":"a","r":true}],"s":1}}"#,
    r#"{"cell":"record","is":{"o":[{"c":"k","d":"a","r":true}],"s":1}}"#,
    r#"{"cell":"record","is":{"_id":"000000000000000000000001","s":1}}"#,
    r#"{"cell":"record","is":{"_id":"000000000000000000000001","o":[],"s":1}}"#,
    r#"{"cell":"record","is":{"_id":"000000000000000000000001","o":[{"c":"k","d":"a"}],"s":1}}"#,
    r#"{"cell":"record","is":{"_id":"000000000000000000000001","o":[{"c":"k","d":"a","r":true}]}}"#,
    r#"{"cell":"record","is":{"_id":"000000000000000000000001","o":[{"c":"k","d":"a","r":true}],"s":0}}"#,
    r#"{"cell":"record","is":{"_id":"000000000000000000000001","o":[{"c":"k","d":"a","r":true}],"s":7}}"#,
    r#"{"cell":"record","is":{"_id":"000000000000000000000001","o":[{"c":"k","d":"a","r":true}],"s":"1"}}"#,
    r#"{"cell":"record","is":{"_id":"000000000000000000000001","n":"0000000","o":[{"c":"k","d":"a","r":true}],"s":1}}"#,
    r#"{"cell":"record","is":{"_id":"000000000000000000000001","n":0,"o":[{"c":"k","d":"a","r":true}],"s":1}}"#,
    r#"{"cell":"record","is":{"_id":"000000000000000000000001","o":[{"c":"k","d":"a","r":true}],"r":["0"],"s":1}}"#,
    r#"{"cell":"record","is":{"_id":"000000000000000000000001","o":[{"c":"k","d":"a","r":true}],"s":1,"x":1}}"#,
];

fn read(alloc: Global, line: &[u8]) -> Result<Named, Fail> {
    let value = read_value(alloc, line)?;
    Ok(read_cell_text(alloc, &value).ok().ok_or("no cell")?)
}

// A cell is let go before memory may be wanting for what it was printed as: each path on which a cell is
// alive is one more to be proved.

fn printed(alloc: Global, line: &[u8]) -> Result<Vec<u8>, Fail> {
    let named = read(alloc, line)?;
    let text = print_cell(alloc, &named);
    drop(named);
    Ok(text?)
}

fn copied(alloc: Global, line: &[u8]) -> Result<Vec<u8>, Fail> {
    let named = read(alloc, line)?;
    let copy = named.copy(alloc);
    drop(named);
    let copy = copy?;
    let text = cell_text(alloc, &copy);
    drop(copy);
    Ok(text?)
}

fn pushed(alloc: Global, line: &[u8]) -> Result<Vec<u8>, Fail> {
    let named = read(alloc, line)?;
    let mut lines = Vec::new(alloc);
    let done = push_cell(alloc, &mut lines, &named);
    drop(named);
    done?;
    Ok(lines)
}

fn name_of(alloc: Global, line: &[u8]) -> Result<Vec<u8>, Fail> {
    let named = read(alloc, line)?;
    let name = print_name(alloc, &named.name);
    drop(named);
    Ok(name?)
}

/// Whether the text is a cell that is printed so, as it is and when it is read again.
fn prints(alloc: Global, line: &str, expected: &str) -> Result<bool, Fail> {
    let text = printed(alloc, line.as_bytes())?;
    let again = copied(alloc, text.as_slice())?;
    let line = pushed(alloc, text.as_slice())?;
    Ok(
        text.as_slice() == expected.as_bytes()
            && again.as_slice() == expected.as_bytes()
            && line.len() == expected.len() + 1,
    )
}

fn is_named(alloc: Global, line: &str, name: &str) -> Result<bool, Fail> {
    let printed = name_of(alloc, line.as_bytes())?;
    Ok(prints(alloc, line, line)? && printed.as_slice() == name.as_bytes())
}

fn is_bad(alloc: Global, line: &str) -> Result<bool, Fail> {
    let value = read_value(alloc, line.as_bytes())?;
    match read_cell_text(alloc, &value) {
        Ok(_) => Ok(false),
        Err(fault) => Ok(fault == CellFault::Bad),
    }
}

#[test]
fn cells_are_read_and_printed(rt: HostRuntime) -> Result<(), Fail> {
    for (line, name) in &CELLS {
        assert!(rt; is_named(rt.alloc(), line, name)?, "{line}");
    }
    for (line, expected) in &OTHERWISE {
        assert!(rt; prints(rt.alloc(), line, expected)?, "{line}");
    }
    for line in &NO_CELLS {
        assert!(rt; is_bad(rt.alloc(), line)?, "{line}");
    }
    Ok(())
}

fn entry(alloc: Global, outcome: Outcome) -> Result<Entry, Fail> {
    let ops = read_value(alloc, br#"[{"c":"k","d":"a","r":true}]"#)?;
    Ok(Entry {
        id: TxnId([0, 0, 0, 0, 0, 0, 0, 0, 0, 0, 0, 171]),
        ops: Ops::read(alloc, &ops).ok().ok_or("no operations")?,
        outcome,
        revnos: Items::new(alloc),
        at: 7,
    })
}

fn document(alloc: Global, line: &str) -> Result<Doc, Fail> {
    Ok(Doc {
        key: Key {
            c: Text::from_str(alloc, "k\n")?,
            d: DocId::Int(-3),
        },
        body: read_value(alloc, line.as_bytes())?,
    })
}

#[test]
fn entries_and_documents_are_printed(rt: HostRuntime) -> Result<(), Fail> {
    let alloc = rt.alloc();
    let applied = entry(alloc, Outcome::Applied)?;
    let aborted = entry(alloc, Outcome::Aborted)?;
    let doc = document(alloc, r#"{"b":[1,"x"],"a":null}"#)?;
    let text = print_entry(alloc, 10, &applied)?;
    assert!(rt; text.as_slice() == b"10 0000000000000000000000ab applied".as_slice());
    let text = print_doc(alloc, &doc)?;
    assert!(rt; text.as_slice() == br#""k\n" -3 {"a":null,"b":[1,"x"]}"#.as_slice());
    let mut lines = Vec::new(alloc);
    push_entry(alloc, &mut lines, 1, &aborted)?;
    push_document(&mut lines, &doc)?;
    assert!(rt;
        lines.as_slice()
            == b"1 0000000000000000000000ab aborted\n\"k\\n\" -3 {\"a\":null,\"b\":[1,\"x\"]}\n".as_slice()
    );
    Ok(())
}
