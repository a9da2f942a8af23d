//! The worked scripts, and the outside failing at each of its calls.
use crate::command::command;
use std::alloc::Global;
use std::test::Fail;
use store_memory::{MemoryStore, SilentStore};
use store_trait::Store;
use txn_io::{MemorySink, MemorySource};
use txn_key::TxnId;
use txn_runner::Waiting;
use txn_script::{Statement, read_line};

const ROOM: u64 = 4096;

const USAGE: &str =
    "usage: txn run [--db FILE] [--log FILE] | txn race [--log FILE] | txn grind N [--db FILE] [--log FILE]\n";

const SCRIPT: &str = r#"{"doc":["k","a"],"body":{"v":0}}
{"txn":"000000000000000000000001","ops":[{"c":"k","d":"a","u":{"$set":{"v":1}}}]}
{"go":{}}
{"show":true}
"#;

const OUTPUT: &str = r#"000000000000000000000001 applied
"k" "a" {"v":1}
"#;

/// Its assertion fails, so that nothing changes.
const ABORT: &str = r#"{"doc":["k","a"],"body":{"v":0}}
{"txn":"000000000000000000000001","ops":[{"a":{"v":1},"c":"k","d":"a","u":{"$set":{"v":2}}}]}
{"txn":"000000000000000000000002","ops":[{"a":"d+","c":"k","d":"a"}]}
{"show":true}
"#;

const ABORTED: &str = r#"000000000000000000000001 aborted
000000000000000000000002 applied
"k" "a" {"v":0}
"#;

/// Its assertion fails, beside an update.
const ABSENT: &str = r#"{"doc":["k","a"],"body":{"v":0}}
{"txn":"000000000000000000000001","ops":[{"c":"k","d":"a","u":{"$set":{"v":1}}}]}
{"txn":"000000000000000000000002","ops":[{"c":"k","d":"a","a":"d-","u":{"$set":{"v":2}}}]}
{"go":{}}
{"show":true}
"#;

/// A sum that doesn't fit 64 bits, and the greatest that does.
const GREATEST: &str = r#"{"doc":["k","p"],"body":{"n":9223372036854775807}}
{"doc":["k","q"],"body":{"n":9223372036854775806}}
{"txn":"000000000000000000000001","ops":[{"c":"k","d":"p","u":{"$inc":{"n":1}}}]}
{"txn":"000000000000000000000002","ops":[{"c":"k","d":"q","u":{"$inc":{"n":1}}}]}
{"go":{}}
{"show":true}
"#;

/// The batch runs first, and then the line is refused, as one that comes too late, not as a second one.
const UNPLACED: &str = r#"{"doc":["k","a"],"body":{"v":0}}
{"txn":"000000000000000000000001","ops":[{"c":"k","d":"a","u":{"$set":{"v":1}}}],"info":null}
{"doc":["k","a"],"body":{}}
"#;

/// A token waits in a queue, and the record that it names is lost: an audit says so, and the script goes on.
const LOST: &str =
    r#"{"c":"k","cell":"doc","is":{"_id":"x","txn-queue":["000000000000000000000009_00000000"],"v":0}}
{"cell":"nonce","is":{"next":1}}
{"audit":true}
{"order":true}
"#;

/// Documents aren't shown of such a store.
const LOST_SHOWN: &str =
    r#"{"c":"k","cell":"doc","is":{"_id":"x","txn-queue":["000000000000000000000009_00000000"],"v":0}}
{"cell":"nonce","is":{"next":1}}
{"show":true}
{"audit":true}
"#;

/// A transaction is on its way, of which one document has its update and the other hasn't: each is shown with it.
const APPLYING: &str =
    r#"{"cell":"record","is":{"_id":"000000000000000000000001","n":"00000000","o":[{"c":"k","d":"a","u":{"$inc":{"v":-1}}},{"c":"k","d":"b","u":{"$inc":{"v":1}}}],"r":[0,0],"s":4}}
{"c":"k","cell":"doc","is":{"_id":"a","txn-queue":["000000000000000000000001_00000000"],"txn-revno":1,"v":2}}
{"c":"k","cell":"doc","is":{"_id":"b","txn-queue":["000000000000000000000001_00000000"],"v":5}}
{"cell":"nonce","is":{"next":1}}
{"audit":true}
{"show":true}
"#;

/// What words and a script come to: the status and the output.
static WORKED: [(&str, &str, u8, &str); 20] = [
    ("run", SCRIPT, 0, OUTPUT),
    ("run", ABORT, 1, ABORTED),
    (
        "run",
        ABSENT,
        1,
        "000000000000000000000001 applied\n000000000000000000000002 aborted\n\"k\" \"a\" {\"v\":1}\n",
    ),
    (
        "run",
        GREATEST,
        1,
        "000000000000000000000001 aborted\n000000000000000000000002 applied\n\"k\" \"p\" {\"n\":9223372036854775807}\n\"k\" \"q\" {\"n\":9223372036854775807}\n",
    ),
    ("run", "", 0, ""),
    ("fly", SCRIPT, 2, USAGE),
    ("", SCRIPT, 2, USAGE),
    ("race --db f", SCRIPT, 2, USAGE),
    ("grind 0", SCRIPT, 2, USAGE),
    ("grind 2001", SCRIPT, 2, USAGE),
    ("run", "{\"audit\":true}\n", 0, "sound\n"),
    ("run", LOST, 0, "unsound: rule 2 at doc \"k\" \"x\"\n"),
    ("run", LOST_SHOWN, 4, "unsound: rule 2 at doc \"k\" \"x\"\n"),
    (
        "run",
        APPLYING,
        0,
        "sound\n\"k\" \"a\" {\"v\":2}\n\"k\" \"b\" {\"v\":6}\n",
    ),
    ("run", "# a comment\n\n{\"sho", 3, "line 3: not JSON\n"),
    (
        "run",
        r#"{"txn":"000000000000000000000001","ops":[{"c":"k","d":"a","i":{},"r":true}]}"#,
        3,
        "line 1: error in transaction op 0: more than one of Insert/Update/Remove set\n",
    ),
    (
        "run",
        r#"{"txn":"000000000000000000000001","ops":[{"c":"k","d":"a","a":"d+"},{"c":"k"}]}"#,
        3,
        "line 1: error in transaction op 1: C or Id missing\n",
    ),
    (
        "run",
        r#"{"txn":"000000000000000000000001","ops":[{"c":"k","d":"a"}]}"#,
        3,
        "line 1: error in transaction op 0: none of Assert/Insert/Update/Remove set\n",
    ),
    (
        "run",
        r#"{"txn":"000000000000000000000001","ops":[{"c":"k","d":"a","a":"d+"}]}"#,
        3,
        "line 1: not built yet\n",
    ),
    (
        "run",
        UNPLACED,
        3,
        "000000000000000000000001 applied\nline 3: placed too late\n",
    ),
];

/// What a call wrote, and how it ended.
#[derive(Drop)]
struct Played {
    status: u8,
    written: Vec<u8>,
}

/// The numbers of the calls of the input, the output and the store that fail; 0 is no call's number.
#[derive(Clone, Copy)]
struct Fails {
    input: u64,
    output: u64,
    store: u64,
}

const NONE: Fails = Fails {
    input: 0,
    output: 0,
    store: 0,
};

fn play(alloc: Global, words: &str, script: &str, fails: Fails) -> Result<Played, Fail> {
    let store = MemoryStore::new(alloc, vec![in alloc; fails.store]?)?;
    play_over(alloc, words, script.as_bytes(), fails, store)
}

/// Calls the program with words that stand between blanks.
fn play_over<S: Store + Drop>(
    alloc: Global,
    words: &str,
    script: &[u8],
    fails: Fails,
    store: S,
) -> Result<Played, Fail> {
    let mut list = Vec::new(alloc);
    for word in words.split(' ') {
        if !word.is_empty() {
            list.push(String::from_str(alloc, word)?)?;
        }
    }
    let bytes = Vec::from_slice(alloc, script)?;
    let mut input = MemorySource::new(bytes, vec![in alloc; fails.input]?);
    let mut output = MemorySink::new(alloc, ROOM, vec![in alloc; fails.output]?)?;
    let done = command(alloc, list.as_slice(), &mut input, &mut output, store);
    for run in &done.runs {
        let _copy = run.copy(alloc)?;
    }
    let written = Vec::from_slice(alloc, output.written())?;
    Ok(Played {
        status: done.status,
        written,
    })
}

#[test]
fn worked_scripts(rt: HostRuntime) -> Result<(), Fail> {
    let alloc = rt.alloc();
    for (words, script, status, text) in &WORKED {
        let played = play(alloc, words, script, NONE)?;
        assert_eq!(rt; played.status, *status, "{words} {script}");
        assert_eq!(rt;
            played.written.as_slice(),
            text.as_bytes(),
            "{words} {script}"
        );
    }
    Ok(())
}

/// A script of the cells that an export prints is that store.
#[test]
fn exports_again(rt: HostRuntime) -> Result<(), Fail> {
    let alloc = rt.alloc();
    for (words, script, status, _) in &WORKED {
        if *status < 2 {
            let cells = exported(alloc, words, script)?;
            let again = exported(alloc, words, cells.as_str())?;
            assert_eq!(rt; again.as_str(), cells.as_str(), "{script}");
        }
    }
    Ok(())
}

/// The cell lines that an export behind a script prints.
fn exported(alloc: Global, words: &str, script: &str) -> Result<String, Fail> {
    let asked = format!(in alloc; "{script}{{\"export\":true}}\n")?;
    let played = play(alloc, words, asked.as_str(), NONE)?;
    let mut cells = String::new(alloc);
    for line in str::from_utf8(played.written.as_slice())?.lines() {
        if line.starts_with('{') {
            cells.push_str(line)?;
            cells.push('\n')?;
        }
    }
    Ok(cells)
}

#[test]
fn copied_transactions(rt: HostRuntime) -> Result<(), Fail> {
    let alloc = rt.alloc();
    let line = br#"{"txn":"000000000000000000000001","ops":[{"c":"k","d":"a","a":"d+"}]}"#;
    let Ok(Some(Statement::Submit { id, ops, .. })) = read_line(alloc, line) else {
        return Err("no transaction".into());
    };
    let copy = Waiting {
        id,
        info: None,
        ops,
    }
    .copy(alloc)?;
    assert_eq!(rt; copy.id, TxnId([0, 0, 0, 0, 0, 0, 0, 0, 0, 0, 0, 1]));
    assert_eq!(rt; copy.ops.as_slice().len(), 1);
    Ok(())
}

/// A line of one byte more than a line may have.
#[test]
fn long_lines(rt: HostRuntime) -> Result<(), Fail> {
    let alloc = rt.alloc();
    let mut line = Vec::new(alloc);
    for _ in 0..16_777_217u32 {
        line.push(b'a')?;
    }
    let store = MemoryStore::new(alloc, Vec::new(alloc))?;
    let played = play_over(alloc, "run", line.as_slice(), NONE, store)?;
    assert_eq!(rt; played.status, 3);
    assert_eq!(rt; played.written.as_slice(), b"line 1: too long\n".as_slice());
    Ok(())
}

/// Whichever call of the store fails, the call ends with status 5; a number that isn't reached
/// changes nothing.
#[test]
fn failing_stores(rt: HostRuntime) -> Result<(), Fail> {
    let alloc = rt.alloc();
    for call in 1..30u64 {
        let fails = Fails {
            store: call,
            ..NONE
        };
        let played = play(alloc, "run", SCRIPT, fails)?;
        let last = played.written.as_slice().ends_with(b"store fault\n");
        assert_eq!(rt; last, played.status == 5, "{call}");
        assert_eq!(rt; played.status == 0, call > 18, "{call}");
    }
    Ok(())
}

/// Shows documents while a transaction waits.
const UNRUN: &str = r#"{"doc":["k","a"],"body":{"v":0}}
{"txn":"000000000000000000000001","ops":[{"c":"k","d":"a","u":{"$set":{"v":1}}}]}
{"show":true}
"#;

/// A batch that runs by itself is a statement of its own: its outcomes are printed, also where the store
/// fails as the cells are read behind it.
#[test]
fn refused_behind_a_batch(rt: HostRuntime) -> Result<(), Fail> {
    let alloc = rt.alloc();
    for call in 15..19u64 {
        let fails = Fails {
            store: call,
            ..NONE
        };
        let played = play(alloc, "run", UNRUN, fails)?;
        assert_eq!(rt; played.status, 5, "{call}");
        assert_eq!(rt;
            played.written.as_slice(),
            b"000000000000000000000001 applied\nstore fault\n".as_slice(),
            "{call}"
        );
    }
    Ok(())
}

#[test]
fn failing_input_and_output(rt: HostRuntime) -> Result<(), Fail> {
    let alloc = rt.alloc();
    let unread = play(alloc, "run", SCRIPT, Fails { input: 1, ..NONE })?;
    assert_eq!(rt; unread.status, 6);
    assert_eq!(rt; unread.written.as_slice(), b"input fault\n".as_slice());
    let unwritten = play(alloc, "run", SCRIPT, Fails { output: 1, ..NONE })?;
    assert_eq!(rt; unwritten.status, 7);
    assert_eq!(rt; unwritten.written.as_slice(), b"".as_slice());
    Ok(())
}

/// Each line that came whole before the input failed is done; a part of a line isn't.
#[test]
fn failing_behind_lines(rt: HostRuntime) -> Result<(), Fail> {
    let alloc = rt.alloc();
    let whole = "000000000000000000000001 applied\n\"k\" \"a\" {\"v\":1}\ninput fault\n";
    let part = "000000000000000000000001 applied\ninput fault\n";
    for (script, text) in [(SCRIPT, whole), (SCRIPT.trim_end(), part)] {
        let played = play(alloc, "run", script, Fails { input: 2, ..NONE })?;
        assert_eq!(rt; played.status, 6, "{script}");
        assert_eq!(rt; played.written.as_slice(), text.as_bytes(), "{script}");
    }
    Ok(())
}

/// The same code runs over a store that tells nothing of what it holds.
#[test]
fn silent_stores(rt: HostRuntime) -> Result<(), Fail> {
    let alloc = rt.alloc();
    for (fails, status, text) in [(0, 0, OUTPUT), (3, 5, "store fault\n")] {
        let told = MemoryStore::new(alloc, vec![in alloc; fails]?)?;
        let played = play_over(
            alloc,
            "run",
            SCRIPT.as_bytes(),
            NONE,
            SilentStore::over(told),
        )?;
        assert_eq!(rt; played.status, status, "{fails}");
        assert_eq!(rt; played.written.as_slice(), text.as_bytes(), "{fails}");
    }
    Ok(())
}
