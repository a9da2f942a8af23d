//! The lines of scripts. How documents are shown stands as a script in `examples/values.jsonl`.
use doc_value::{OutOfMemory, read_value};
use std::alloc::Global;
use std::test::Fail;
use txn_script::{GoPlan, ScriptFault, Statement, read_line};

/// Lines and their kind, or the text that refuses them.
static LINES: [(&str, &str); 88] = [
    ("", "nothing"),
    (" \t\r", "nothing"),
    (r#"# {"show":true}"#, "nothing"),
    ("#", "nothing"),
    ("#{\"txn\":\"x\"}\r", "nothing"),
    ("\t{\"show\":true} \r", "show"),
    (" # x", "not JSON"),
    ("\u{c}", "not JSON"),
    (r#"{"show":true} # x"#, "not JSON"),
    (r#"{"show":tru}"#, "not JSON"),
    (r#"{"show":true"#, "not JSON"),
    (r#"{"":true}"#, "bad field name"),
    (r#"{"a\u0000":true}"#, "bad field name"),
    ("1.5", "number not whole"),
    ("[-0]", "number not whole"),
    (r#"{"go":1e2}"#, "number not whole"),
    ("9223372036854775808", "number not whole"),
    (r#"{"doc":["k","a"],"body":{"v":0}}"#, "doc"),
    (r#"{"body":{"_id":7},"doc":["k",7]}"#, "doc"),
    (r#"{"body":{},"doc":["k",""]}"#, "doc"),
    (r#"{"body":{},"doc":[]}"#, "bad body"),
    (r#"{"body":{},"doc":["k"]}"#, "bad body"),
    (r#"{"body":{},"doc":["k","a","b"]}"#, "bad body"),
    (r#"{"body":{},"doc":"k"}"#, "bad body"),
    (r#"{"body":{},"doc":{"c":"k","d":"a"}}"#, "bad body"),
    (r#"{"body":{},"doc":["","a"]}"#, "bad body"),
    (r#"{"body":{},"doc":["_id","a"]}"#, "bad body"),
    (r#"{"body":{},"doc":[1,"a"]}"#, "bad body"),
    (r#"{"body":{},"doc":["k",null]}"#, "bad body"),
    (r#"{"body":{},"doc":["k",true]}"#, "bad body"),
    (r#"{"body":[],"doc":["k","a"]}"#, "bad body"),
    (r#"{"body":{"txn-x":1},"doc":["k","a"]}"#, "bad body"),
    (r#"{"body":{"_id":"7"},"doc":["k",7]}"#, "bad body"),
    (r#"{"body":{"a":[{"b.c":1}]},"doc":["k","a"]}"#, "bad body"),
    (
        r#"{"txn":"000000000000000000000001","ops":[{"c":"k","d":"a","u":{"$set":{"v":1}}}]}"#,
        "submit",
    ),
    (
        r#"{"ops":[{"c":"k","d":"a","u":{"$set":{"v":1}}}],"info":null,"txn":"000000000000000000000001"}"#,
        "submit with info",
    ),
    (
        r#"{"ops":[{"c":"k","d":"a","u":{"$set":{"v":1}}}],"txn":"00000000000000000000000A"}"#,
        "submit",
    ),
    (
        r#"{"ops":[{"c":"k","d":"a","u":{"$set":{"v":1}}}],"txn":"00000000000000000000001"}"#,
        "bad id",
    ),
    (
        r#"{"ops":[{"c":"k","d":"a","u":{"$set":{"v":1}}}],"txn":"0000000000000000000000001"}"#,
        "bad id",
    ),
    (
        r#"{"ops":[{"c":"k","d":"a","u":{"$set":{"v":1}}}],"txn":"00000000000000000000000g"}"#,
        "bad id",
    ),
    (
        r#"{"ops":[{"c":"k","d":"a","u":{"$set":{"v":1}}}],"txn":1}"#,
        "bad id",
    ),
    (
        r#"{"ops":null,"txn":"000000000000000000000001"}"#,
        "no operations",
    ),
    (
        r#"{"ops":{"c":"k","d":"a","u":{"$set":{"v":1}}},"txn":"000000000000000000000001"}"#,
        "no operations",
    ),
    (
        r#"{"ops":[],"txn":"000000000000000000000001"}"#,
        "no operations",
    ),
    (r#"{"go":{}}"#, "go"),
    (r#"{"show":true}"#, "show"),
    (r#"{"show":false,"show":true}"#, "show"),
    (r#"{"go":{"runners":1}}"#, "not built yet"),
    (
        r#"{"go":{"stops":[[0,9]],"finish":false}}"#,
        "not built yet",
    ),
    (r#"{"go":{"runners":0}}"#, "bad statement"),
    (r#"{"go":[]}"#, "bad statement"),
    (r#"{"go":true}"#, "bad statement"),
    (r#"{"resume":"00000000000000000000000A"}"#, "resume"),
    (r#"{"resume":"all"}"#, "resume all"),
    (r#"{"resume":"ALL"}"#, "bad id"),
    (r#"{"resume":""}"#, "bad id"),
    (r#"{"resume":"00000000000000000000001"}"#, "bad id"),
    (r#"{"resume":null}"#, "bad id"),
    (r#"{"resume":true}"#, "bad id"),
    (r#"{"resume":"all","x":1}"#, "bad statement"),
    (r#"{"prune":true}"#, "prune"),
    (r#"{"purge":true}"#, "purge"),
    (r#"{"audit":true}"#, "audit"),
    (r#"{"export":true}"#, "export"),
    (r#"{"order":true}"#, "order"),
    (r#"{"prune":false}"#, "bad statement"),
    (r#"{"purge":1}"#, "bad statement"),
    (r#"{"audit":"true"}"#, "bad statement"),
    (r#"{"show":false}"#, "bad statement"),
    (r#"{"show":1}"#, "bad statement"),
    (r#"{"export":null}"#, "bad statement"),
    (r#"{"order":[]}"#, "bad statement"),
    (r#"{"Show":true}"#, "bad statement"),
    (r#"{"sweep":true}"#, "bad statement"),
    ("null", "bad statement"),
    (r#"["show"]"#, "bad statement"),
    ("{}", "bad statement"),
    (r#"{"body":{}}"#, "bad statement"),
    (r#"{"doc":["k","a"]}"#, "bad statement"),
    (r#"{"show":true,"export":true}"#, "bad statement"),
    (r#"{"go":{},"show":true}"#, "bad statement"),
    (
        r#"{"info":1,"ops":[{"c":"k","d":"a","u":{"$set":{"v":1}}}],"to":1,"txn":"000000000000000000000001"}"#,
        "bad statement",
    ),
    (
        r#"{"Info":1,"ops":[{"c":"k","d":"a","u":{"$set":{"v":1}}}],"txn":"000000000000000000000001"}"#,
        "bad statement",
    ),
    (
        r#"{"info":1,"txn":"000000000000000000000001"}"#,
        "bad statement",
    ),
    (
        r#"{"info":1,"ops":[{"c":"k","d":"a","u":{"$set":{"v":1}}}]}"#,
        "bad statement",
    ),
    (r#"{"cell":"nonce","is":{"next":1}}"#, "cell"),
    (r#"{"cell":"nonce","show":true}"#, "bad cell"),
    (r#"{"cell":null}"#, "bad cell"),
];

/// Lines with two faults, and the text of the first by the order of the tests.
static DOUBLY_FAULTY: [(&str, &str); 23] = [
    (r#"{"":1.5"#, "not JSON"),
    (r#"{"txn":"x","ops":[]"#, "not JSON"),
    (r#"{"a":1.5,"":1}"#, "bad field name"),
    (r#"{"doc":5,"body":{"":1}}"#, "bad field name"),
    (r#"{"x":1.5}"#, "number not whole"),
    (r#"{"txn":"x","ops":[1.5]}"#, "number not whole"),
    (r#"{"body":1.5,"doc":5}"#, "number not whole"),
    (r#"{"ops":[],"txn":"x"}"#, "bad id"),
    (r#"{"ops":5,"txn":null}"#, "bad id"),
    (r#"{"ops":[{}],"txn":"x"}"#, "bad id"),
    (r#"{"ops":[5,5],"info":1,"txn":[]}"#, "bad id"),
    (r#"{"body":5,"doc":5}"#, "bad body"),
    (r#"{"body":{"$a":1},"doc":["k",null]}"#, "bad body"),
    (r#"{"txn":"x"}"#, "bad statement"),
    (r#"{"txn":"x","ops":[],"y":1}"#, "bad statement"),
    (r#"{"body":5,"doc":5,"x":1}"#, "bad statement"),
    (r#"{"ops":[],"show":false}"#, "bad statement"),
    (r#"{"show":1.5,"show":false}"#, "bad statement"),
    (r#"{"resume":5,"show":false}"#, "bad statement"),
    (r#"{"cell":"doc","txn":"x"}"#, "bad cell"),
    (r#"{"cell":1.5}"#, "number not whole"),
    (r#"{"cell":5,"body":5,"doc":5}"#, "bad cell"),
    (r#"{"go":{"runners":2,"seed":-1}}"#, "bad statement"),
];

/// Faulty operations, and the text of the first fault of the first faulty one.
static OPERATIONS: [(&str, &str); 19] = [
    ("5", "error in transaction op 0: bad operation"),
    (
        r#"{"c":"k","d":"a","x":1}"#,
        "error in transaction op 0: bad operation",
    ),
    (r#"{"c":"k"}"#, "error in transaction op 0: C or Id missing"),
    (
        r#"{"c":"k","d":[],"r":true}"#,
        "error in transaction op 0: bad collection or id",
    ),
    (
        r#"{"c":"k","d":"a","i":{},"r":true}"#,
        "error in transaction op 0: more than one of Insert/Update/Remove set",
    ),
    (
        r#"{"c":"k","d":"a","r":false}"#,
        "error in transaction op 0: none of Assert/Insert/Update/Remove set",
    ),
    (
        r#"{"c":"k","d":"a","a":"d+","i":{}}"#,
        "error in transaction op 0: Insert can only Assert d-",
    ),
    (
        r#"{"c":"k","d":"a","i":[]}"#,
        "error in transaction op 0: bad insert",
    ),
    (
        r#"{"c":"k","d":"a","u":{}}"#,
        "error in transaction op 0: bad update",
    ),
    (
        r#"{"c":"k","d":"a","a":"d"}"#,
        "error in transaction op 0: bad assert",
    ),
    (
        r#"{"c":"","r":1}"#,
        "error in transaction op 0: bad operation",
    ),
    (
        r#"{"c":"","d":true}"#,
        "error in transaction op 0: C or Id missing",
    ),
    (
        r#"{"c":"_id","d":"a","i":{},"r":true}"#,
        "error in transaction op 0: bad collection or id",
    ),
    (
        r#"{"c":"k","d":"a","i":5,"u":5}"#,
        "error in transaction op 0: more than one of Insert/Update/Remove set",
    ),
    (
        r#"{"c":"k","d":"a","a":7,"i":5}"#,
        "error in transaction op 0: Insert can only Assert d-",
    ),
    (
        r#"{"c":"k","d":"a","a":7,"u":5}"#,
        "error in transaction op 0: bad update",
    ),
    (
        r#"{"c":"k","d":"a","a":7},5"#,
        "error in transaction op 0: bad assert",
    ),
    (
        r#"{"c":"k","d":"a","a":"d-"},{"c":"k"},5"#,
        "error in transaction op 1: C or Id missing",
    ),
    (
        r#"{"c":"k","d":"a","r":true},{"c":"k","d":"a","a":{}},{"c":"k","d":"a","u":5},{}"#,
        "error in transaction op 2: bad update",
    ),
];

/// Lines in which `@` stands for lists nested so deep.
static NESTED: [(&str, usize, &str); 25] = [
    ("@", 100, "bad statement"),
    ("@", 101, "nested too deep"),
    ("@", 127, "nested too deep"),
    ("@", 128, "not JSON"),
    ("[@", 101, "not JSON"),
    ("[@,1.5]", 99, "number not whole"),
    ("[@,1.5]", 100, "nested too deep"),
    (r#"{"":1,"x":@}"#, 99, "bad field name"),
    (r#"{"":1,"x":@}"#, 100, "nested too deep"),
    (r#"{"body":{"a":@},"doc":["k","a"]}"#, 89, "doc"),
    (r#"{"body":{"a":@},"doc":["k","a"]}"#, 90, "bad body"),
    (r#"{"body":{},"doc":@}"#, 99, "bad body"),
    (
        r#"{"info":@,"ops":[{"c":"k","d":"a","u":{"$set":{"v":1}}}],"txn":"000000000000000000000001"}"#,
        90,
        "submit with info",
    ),
    (
        r#"{"info":@,"ops":[{"c":"k","d":"a","u":{"$set":{"v":1}}}],"txn":"000000000000000000000001"}"#,
        91,
        "bad info",
    ),
    (
        r#"{"info":@,"ops":[],"txn":"000000000000000000000001"}"#,
        90,
        "no operations",
    ),
    (
        r#"{"info":@,"ops":[],"txn":"000000000000000000000001"}"#,
        91,
        "bad info",
    ),
    (
        r#"{"info":@,"ops":[{}],"txn":"000000000000000000000001"}"#,
        91,
        "bad info",
    ),
    (
        r#"{"info":@,"ops":[{"c":"k","d":"a","u":{"$set":{"v":1}}}],"txn":"x"}"#,
        91,
        "bad id",
    ),
    (
        r#"{"info":@,"txn":"000000000000000000000001"}"#,
        91,
        "bad statement",
    ),
    (
        r#"{"info":@,"ops":[{"c":"k","d":"a","u":{"$set":{"v":1}}}],"txn":"000000000000000000000001"}"#,
        100,
        "nested too deep",
    ),
    (r#"{"ops":[],"txn":@}"#, 99, "bad id"),
    (r#"{"ops":[],"txn":@}"#, 100, "nested too deep"),
    (
        r#"{"ops":@,"txn":"000000000000000000000001"}"#,
        99,
        "error in transaction op 0: bad operation",
    ),
    (
        r#"{"ops":[{"c":"k","d":"a","u":@}],"txn":"000000000000000000000001"}"#,
        90,
        "error in transaction op 0: bad update",
    ),
    (
        r#"{"ops":[{"c":"k","d":"a","u":@}],"txn":"000000000000000000000001"}"#,
        91,
        "error in transaction op 0: nested too deep",
    ),
];

/// Operations in which `@` stands for so many that are not faulty.
static COUNTED: [(&str, usize, &str); 4] = [
    (r#"@{"c":"k","d":"a","r":true}"#, 999, "submit"),
    (
        r#"@{"c":"k","d":"a","r":true}"#,
        1000,
        "too many operations",
    ),
    ("@5", 999, "error in transaction op 999: bad operation"),
    ("@5", 1000, "too many operations"),
];

/// Plans of a batch, and what they are: runners, seed, whether what is left is finished, and the stops.
static PLANS: [(&str, &str); 33] = [
    ("{}", "1 0 true"),
    (r#"{"runners":16}"#, "16 0 true"),
    (
        r#"{"seed":9223372036854775807}"#,
        "1 9223372036854775807 true",
    ),
    (r#"{"finish":false}"#, "1 0 false"),
    (r#"{"finish":true,"stops":[]}"#, "1 0 true"),
    (r#"{"stops":[[0,0]]}"#, "1 0 true 0:0"),
    (
        r#"{"finish":false,"runners":3,"seed":7,"stops":[[2,9223372036854775807],[0,1]]}"#,
        "3 7 false 2:9223372036854775807 0:1",
    ),
    ("[]", "bad statement"),
    ("null", "bad statement"),
    ("true", "bad statement"),
    (r#"{"runner":1}"#, "bad statement"),
    (r#"{"runners":1,"x":1}"#, "bad statement"),
    (r#"{"runners":0}"#, "bad statement"),
    (r#"{"runners":17}"#, "bad statement"),
    (r#"{"runners":-1}"#, "bad statement"),
    (r#"{"runners":"2"}"#, "bad statement"),
    (r#"{"runners":null}"#, "bad statement"),
    (r#"{"seed":-1}"#, "bad statement"),
    (r#"{"seed":"1"}"#, "bad statement"),
    (r#"{"finish":1}"#, "bad statement"),
    (r#"{"finish":null}"#, "bad statement"),
    (r#"{"stops":{}}"#, "bad statement"),
    (r#"{"stops":[0,1]}"#, "bad statement"),
    (r#"{"stops":[[0]]}"#, "bad statement"),
    (r#"{"stops":[[0,1,2]]}"#, "bad statement"),
    (r#"{"stops":[[0,"1"]]}"#, "bad statement"),
    (r#"{"stops":[[0,-1]]}"#, "bad statement"),
    (r#"{"stops":[[-1,0]]}"#, "bad statement"),
    (r#"{"stops":[[1,0]]}"#, "bad statement"),
    (r#"{"runners":2,"stops":[[2,0]]}"#, "bad statement"),
    (r#"{"runners":2,"stops":[[4294967297,0]]}"#, "bad statement"),
    (r#"{"stops":[[0,1],[0,1]]}"#, "bad statement"),
    (
        r#"{"runners":3,"stops":[[1,1],[2,1],[1,2]]}"#,
        "bad statement",
    ),
];

const OPERATION: &str = r#"{"c":"k","d":"a","a":"d-"},"#;

/// The kind of a statement.
fn kind(statement: &Statement) -> &'static str {
    match statement {
        Statement::Doc { .. } => "doc",
        Statement::Place { .. } => "cell",
        Statement::Submit { info: None, .. } => "submit",
        Statement::Submit { .. } => "submit with info",
        Statement::Go(_) => "go",
        Statement::Resume(Some(_)) => "resume",
        Statement::Resume(None) => "resume all",
        Statement::Prune => "prune",
        Statement::Purge => "purge",
        Statement::Audit => "audit",
        Statement::Show => "show",
        Statement::Export => "export",
        Statement::Order => "order",
    }
}

/// The kind of a copy. The copy alone is alive where memory may be wanting.
fn kind_of_copy(alloc: Global, statement: Statement) -> Result<&'static str, OutOfMemory> {
    let copy = statement.copy(alloc);
    drop(statement);
    let copy = copy?;
    Ok(kind(&copy))
}

/// Whether a line is shown so, or is refused by that text.
fn is_read_as(alloc: Global, line: &[u8], expected: &str) -> Result<bool, Fail> {
    match read_line(alloc, line) {
        Ok(None) => Ok(expected == "nothing"),
        Ok(Some(statement)) => Ok(kind_of_copy(alloc, statement)? == expected),
        Err(fault) => Ok(fault.text(alloc)?.as_str() == expected),
    }
}

#[test]
fn lines_are_read_or_refused(rt: HostRuntime) -> Result<(), Fail> {
    for (line, expected) in LINES.iter().chain(DOUBLY_FAULTY.iter()) {
        assert!(rt;
            is_read_as(rt.alloc(), line.as_bytes(), expected)?,
            "{line}"
        );
    }
    assert!(rt; is_read_as(rt.alloc(), b"# \xff\xfe", "nothing")?);
    assert!(rt; is_read_as(rt.alloc(), b"\xff", "not JSON")?);
    assert!(rt; ScriptFault::OutOfMemory.text(rt.alloc())?.as_str() == "out of memory");
    Ok(())
}

fn submission(alloc: Global, ops: &str) -> Result<String, OutOfMemory> {
    format!(in alloc; "{{\"txn\":\"000000000000000000000001\",\"ops\":[{ops}]}}")
}

fn push_times(out: &mut String, times: usize, piece: &str) -> Result<(), OutOfMemory> {
    for _ in 0..times {
        out.push_str(piece)?;
    }
    Ok(())
}

/// The line with so many copies of two texts, one before and one after, in the place of its `@`.
fn filled(alloc: Global, line: &str, times: usize, pieces: [&str; 2]) -> Result<String, Fail> {
    let (before, after) = line.split_once('@').ok_or("no @")?;
    let mut whole = String::from_str(alloc, before)?;
    push_times(&mut whole, times, pieces[0])?;
    push_times(&mut whole, times, pieces[1])?;
    whole.push_str(after)?;
    Ok(whole)
}

fn is_submission(alloc: Global, ops: &str, expected: &str) -> Result<bool, Fail> {
    let line = submission(alloc, ops)?;
    is_read_as(alloc, line.as_bytes(), expected)
}

fn is_counted(alloc: Global, ops: &str, count: usize, expected: &str) -> Result<bool, Fail> {
    let ops = filled(alloc, ops, count, [OPERATION, ""])?;
    is_submission(alloc, ops.as_str(), expected)
}

fn is_nested(alloc: Global, line: &str, depth: usize, expected: &str) -> Result<bool, Fail> {
    let line = filled(alloc, line, depth, ["[", "]"])?;
    is_read_as(alloc, line.as_bytes(), expected)
}

#[test]
fn operations_have_faults_and_limits(rt: HostRuntime) -> Result<(), Fail> {
    for (ops, expected) in &OPERATIONS {
        assert!(rt; is_submission(rt.alloc(), ops, expected)?, "{ops}");
    }
    for (ops, count, expected) in &COUNTED {
        assert!(rt;
            is_counted(rt.alloc(), ops, *count, expected)?,
            "{ops} {count}"
        );
    }
    for (line, depth, expected) in &NESTED {
        assert!(rt;
            is_nested(rt.alloc(), line, *depth, expected)?,
            "{line} {depth}"
        );
    }
    Ok(())
}

fn plan_text(alloc: Global, plan: &GoPlan) -> Result<String, OutOfMemory> {
    let runners = plan.runners;
    let seed = plan.seed;
    let finish = plan.finish;
    let mut text = format!(in alloc; "{runners} {seed} {finish}")?;
    for stop in plan.stops.as_slice() {
        let runner = stop.runner;
        let steps = stop.steps;
        let stop = format!(in alloc; " {runner}:{steps}")?;
        text.push_str(stop.as_str())?;
    }
    Ok(text)
}

fn is_plan(alloc: Global, plan: &str, expected: &str) -> Result<bool, Fail> {
    let value = read_value(alloc, plan.as_bytes())?;
    match GoPlan::read(alloc, &value) {
        Ok(plan) => Ok(plan_text(alloc, &plan.copy(alloc)?)?.as_str() == expected),
        Err(fault) => Ok(fault.text(alloc)?.as_str() == expected),
    }
}

#[test]
fn plans_are_read_or_refused(rt: HostRuntime) -> Result<(), Fail> {
    for (plan, expected) in &PLANS {
        assert!(rt; is_plan(rt.alloc(), plan, expected)?, "{plan}");
    }
    Ok(())
}
