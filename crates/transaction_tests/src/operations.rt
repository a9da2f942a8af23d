//! The operations of a transaction as they are read, and what they print as.
use doc_value::{OutOfMemory, print_value, read_value};
use std::alloc::Global;
use std::test::Fail;
use txn_record::{OpFault, Ops, OpsFault};

/// Values, and what they print as where they are operations, or else their fault, with the number of the
/// operation that has it.
static READINGS: [(&str, &str); 93] = [
    ("5", "NotList"),
    ("null", "NotList"),
    ("{}", "NotList"),
    (r#"{"a":"d+","c":"k","d":1}"#, "NotList"),
    (r#""[]""#, "NotList"),
    ("[]", "Empty"),
    (
        r#"[{"a":"d+","c":"k","d":1}]"#,
        r#"[{"a":"d+","c":"k","d":1}]"#,
    ),
    (
        r#"[{"a":"d-","c":"k","d":"x"}]"#,
        r#"[{"a":"d-","c":"k","d":"x"}]"#,
    ),
    (
        r#"[{"a":{"v":{"$gt":3}},"c":"k","d":-7}]"#,
        r#"[{"a":{"v":{"$gt":3}},"c":"k","d":-7}]"#,
    ),
    (
        r#"[{"a":{},"c":"k","d":""}]"#,
        r#"[{"a":{},"c":"k","d":""}]"#,
    ),
    (
        r#"[{"c":"k","d":1,"i":{"v":[1,{"w":null}]}}]"#,
        r#"[{"c":"k","d":1,"i":{"v":[1,{"w":null}]}}]"#,
    ),
    (
        r#"[{"a":"d-","c":"k","d":1,"i":{}}]"#,
        r#"[{"a":"d-","c":"k","d":1,"i":{}}]"#,
    ),
    (
        r#"[{"c":"k","d":1,"r":true}]"#,
        r#"[{"c":"k","d":1,"r":true}]"#,
    ),
    (
        r#"[{"a":"d+","c":"k","d":1,"r":true}]"#,
        r#"[{"a":"d+","c":"k","d":1,"r":true}]"#,
    ),
    (
        r#"[{"a":{"v":0},"c":"k","d":1,"u":{"$set":{"v":1}}}]"#,
        r#"[{"a":{"v":0},"c":"k","d":1,"u":{"$set":{"v":1}}}]"#,
    ),
    (
        r#"[{"a":"d-","c":"k","d":1,"r":true}]"#,
        r#"[{"a":"d-","c":"k","d":1,"r":true}]"#,
    ),
    (
        r#"[{"a":"d-","c":"k","d":1,"u":{"$set":{"v":1}}}]"#,
        r#"[{"a":"d-","c":"k","d":1,"u":{"$set":{"v":1}}}]"#,
    ),
    (
        r#"[{"u":{"$set":{"v":1}},"r":false,"d":9223372036854775807,"c":"k"}]"#,
        r#"[{"c":"k","d":9223372036854775807,"u":{"$set":{"v":1}}}]"#,
    ),
    (
        r#"[{"c":"k","d":1,"i":{"_id":1,"v":2}}]"#,
        r#"[{"c":"k","d":1,"i":{"v":2}}]"#,
    ),
    (
        r#"[{"c":"k","d":"1","i":{"v":2,"_id":"1"},"r":false}]"#,
        r#"[{"c":"k","d":"1","i":{"v":2}}]"#,
    ),
    (
        r#"[{"c":"k","d":1,"r":false,"a":"d+"}]"#,
        r#"[{"a":"d+","c":"k","d":1}]"#,
    ),
    (
        r#"[{"c":"_i","d":1,"r":true},{"c":"_id2","d":1,"r":true},{"c":"k.$x","d":"_id","r":true}]"#,
        r#"[{"c":"_i","d":1,"r":true},{"c":"_id2","d":1,"r":true},{"c":"k.$x","d":"_id","r":true}]"#,
    ),
    (
        r#"[{"c":"k","d":1,"i":{"a":{"_id":5,"txn-x":6}}},{"c":"k","d":1,"u":{"$inc":{"a._id":1}}},{"c":"k","d":1,"r":true}]"#,
        r#"[{"c":"k","d":1,"i":{"a":{"_id":5,"txn-x":6}}},{"c":"k","d":1,"u":{"$inc":{"a._id":1}}},{"c":"k","d":1,"r":true}]"#,
    ),
    ("[5]", "0 BadOperation"),
    ("[null]", "0 BadOperation"),
    ("[[]]", "0 BadOperation"),
    (r#"[{"a":"d+","c":"k","d":1,"x":1}]"#, "0 BadOperation"),
    (r#"[{"A":"d+","c":"k","d":1}]"#, "0 BadOperation"),
    (r#"[{"a":"d+","aa":1,"c":"k","d":1}]"#, "0 BadOperation"),
    (r#"[{"a":"d+","c":5,"d":1}]"#, "0 BadOperation"),
    (r#"[{"a":"d+","c":null,"d":1}]"#, "0 BadOperation"),
    (r#"[{"c":"k","d":1,"r":1}]"#, "0 BadOperation"),
    (r#"[{"c":"k","d":1,"r":null}]"#, "0 BadOperation"),
    ("[{}]", "0 KeyMissing"),
    (r#"[{"a":"d+","d":1}]"#, "0 KeyMissing"),
    (r#"[{"a":"d+","c":"","d":1}]"#, "0 KeyMissing"),
    (r#"[{"a":"d+","c":"k"}]"#, "0 KeyMissing"),
    (r#"[{"a":"d+","c":"k","d":null}]"#, "0 KeyMissing"),
    (r#"[{"a":"d+","c":"_id","d":1}]"#, "0 BadKey"),
    (r#"[{"a":"d+","c":"k\u0000","d":1}]"#, "0 BadKey"),
    (r#"[{"a":"d+","c":"k","d":true}]"#, "0 BadKey"),
    (r#"[{"a":"d+","c":"k","d":[1]}]"#, "0 BadKey"),
    (r#"[{"a":"d+","c":"k","d":{}}]"#, "0 BadKey"),
    (r#"[{"a":"d+","c":"k","d":"\u0000"}]"#, "0 BadKey"),
    (
        r#"[{"c":"k","d":1,"i":{},"u":{"$set":{"v":1}}}]"#,
        "0 SeveralChanges",
    ),
    (r#"[{"c":"k","d":1,"i":{},"r":true}]"#, "0 SeveralChanges"),
    (
        r#"[{"c":"k","d":1,"r":true,"u":{"$set":{"v":1}}}]"#,
        "0 SeveralChanges",
    ),
    (r#"[{"c":"k","d":1}]"#, "0 NothingSet"),
    (r#"[{"c":"k","d":1,"r":false}]"#, "0 NothingSet"),
    (r#"[{"a":"d+","c":"k","d":1,"i":{}}]"#, "0 InsertAssert"),
    (r#"[{"a":{},"c":"k","d":1,"i":{}}]"#, "0 InsertAssert"),
    (r#"[{"a":null,"c":"k","d":1,"i":{}}]"#, "0 InsertAssert"),
    (r#"[{"c":"k","d":1,"i":5}]"#, "0 BadInsert"),
    (r#"[{"c":"k","d":1,"i":null}]"#, "0 BadInsert"),
    (r#"[{"c":"k","d":1,"i":{"_id":2}}]"#, "0 BadInsert"),
    (r#"[{"c":"k","d":1,"i":{"_id":"1"}}]"#, "0 BadInsert"),
    (r#"[{"c":"k","d":1,"i":{"txn-x":1}}]"#, "0 BadInsert"),
    (r#"[{"c":"k","d":1,"i":{"a":[{"b.c":1}]}}]"#, "0 BadInsert"),
    (r#"[{"a":"d-","c":"k","d":1,"i":{"$v":1}}]"#, "0 BadInsert"),
    (r#"[{"c":"k","d":1,"u":null}]"#, "0 BadUpdate"),
    (r#"[{"c":"k","d":1,"u":{}}]"#, "0 BadUpdate"),
    (r#"[{"c":"k","d":1,"u":{"v":1}}]"#, "0 BadUpdate"),
    (r#"[{"c":"k","d":1,"u":{"$set":{"_id":1}}}]"#, "0 BadUpdate"),
    (r#"[{"a":null,"c":"k","d":1}]"#, "0 BadAssert"),
    (r#"[{"a":"d","c":"k","d":1}]"#, "0 BadAssert"),
    (r#"[{"a":"D+","c":"k","d":1}]"#, "0 BadAssert"),
    (r#"[{"a":["d+"],"c":"k","d":1}]"#, "0 BadAssert"),
    (r#"[{"a":{"$or":[]},"c":"k","d":1}]"#, "0 BadAssert"),
    (r#"[{"c":"","d":1,"x":1}]"#, "0 BadOperation"),
    (r#"[{"c":7}]"#, "0 BadOperation"),
    (r#"[{"r":"true"}]"#, "0 BadOperation"),
    (r#"[{"c":"_id","d":1,"r":0}]"#, "0 BadOperation"),
    (r#"[{"c":"k","d":1,"i":{},"r":1,"u":{}}]"#, "0 BadOperation"),
    (r#"[{"c":"","d":[]}]"#, "0 KeyMissing"),
    (r#"[{"a":"d+","c":"_id","d":null}]"#, "0 KeyMissing"),
    (r#"[{"c":"","d":1,"i":{},"u":{}}]"#, "0 KeyMissing"),
    (r#"[{"c":"k"}]"#, "0 KeyMissing"),
    (r#"[{"a":5,"d":1}]"#, "0 KeyMissing"),
    (r#"[{"c":"_id","d":1,"i":{},"u":{}}]"#, "0 BadKey"),
    (r#"[{"c":"k","d":false}]"#, "0 BadKey"),
    (r#"[{"a":"d+","c":"_id","d":1,"i":{}}]"#, "0 BadKey"),
    (r#"[{"c":"k","d":{},"u":{}}]"#, "0 BadKey"),
    (
        r#"[{"a":"d+","c":"k","d":1,"i":{},"u":{}}]"#,
        "0 SeveralChanges",
    ),
    (r#"[{"c":"k","d":1,"r":true,"u":5}]"#, "0 SeveralChanges"),
    (
        r#"[{"a":5,"c":"k","d":1,"i":5,"r":true}]"#,
        "0 SeveralChanges",
    ),
    (
        r#"[{"a":"d+","c":"k","d":1,"i":{"_id":2}}]"#,
        "0 InsertAssert",
    ),
    (r#"[{"a":5,"c":"k","d":1,"i":{}}]"#, "0 InsertAssert"),
    (r#"[{"a":5,"c":"k","d":1,"u":{}}]"#, "0 BadUpdate"),
    (
        r#"[{"a":{"$or":[]},"c":"k","d":1,"u":null}]"#,
        "0 BadUpdate",
    ),
    (
        r#"[{"c":"k","d":1,"r":true},{"c":"k","d":1,"u":{}},{}]"#,
        "1 BadUpdate",
    ),
    (r#"[{"a":5,"c":"k","d":1},5]"#, "0 BadAssert"),
    (
        r#"[{"a":"d+","c":"k","d":1},{"a":"d-","c":"k","d":2},{"c":"k","d":3},{"c":5}]"#,
        "2 NothingSet",
    ),
    (
        r#"[{"a":"d+","c":"k","d":1},{"a":null,"c":"k","d":1}]"#,
        "1 BadAssert",
    ),
];

/// Texts in which `~` stands for nested lists, how deep these are, and `read` or the fault.
static DEPTHS: [(&str, usize, &str); 17] = [
    (r#"[{"a":{"v":~},"c":"k","d":1}]"#, 89, "read"),
    (r#"[{"a":{"v":~},"c":"k","d":1}]"#, 90, "0 TooDeep"),
    (r#"[{"c":"k","d":1,"i":{"v":~}}]"#, 89, "read"),
    (r#"[{"c":"k","d":1,"i":{"v":~}}]"#, 90, "0 TooDeep"),
    (r#"[{"c":"k","d":1,"u":{"$set":{"v":~}}}]"#, 88, "read"),
    (r#"[{"c":"k","d":1,"u":{"$set":{"v":~}}}]"#, 89, "0 TooDeep"),
    (r#"[{"a":~,"c":"k","d":1}]"#, 90, "0 BadAssert"),
    (r#"[{"a":~,"c":"k","d":1}]"#, 91, "0 TooDeep"),
    (r#"[{"c":"k","d":1,"i":~}]"#, 90, "0 BadInsert"),
    (r#"[{"c":"k","d":1,"i":~}]"#, 91, "0 TooDeep"),
    (r#"[{"c":"k","d":1,"u":~}]"#, 90, "0 BadUpdate"),
    (r#"[{"c":"k","d":1,"u":~}]"#, 91, "0 TooDeep"),
    (r#"[{"a":{"v":~},"c":"k","d":1,"u":{}}]"#, 90, "0 TooDeep"),
    (
        r#"[{"a":{"v":~},"c":"k","d":1,"i":{}}]"#,
        90,
        "0 InsertAssert",
    ),
    (r#"[{"c":"k","d":1,"i":{"$v":~}}]"#, 90, "0 TooDeep"),
    (
        r#"[{"c":"k","d":1,"r":true,"u":~}]"#,
        91,
        "0 SeveralChanges",
    ),
    (r#"[{"c":"k","d":1,"i":{"_id":~}}]"#, 90, "0 TooDeep"),
];

/// What stands first, how many removals follow, what stands last, and `read` or the fault.
static COUNTS: [(&str, usize, &str, &str); 5] = [
    ("", 999, r#"{"c":"k","d":1,"r":true}"#, "read"),
    ("", 1000, r#"{"c":"k","d":1,"r":true}"#, "TooMany"),
    ("5,", 999, "{}", "TooMany"),
    ("", 999, "{}", "999 KeyMissing"),
    ("5,", 998, "{}", "0 BadOperation"),
];

fn op_fault(why: OpFault) -> &'static str {
    match why {
        OpFault::BadOperation => "BadOperation",
        OpFault::KeyMissing => "KeyMissing",
        OpFault::BadKey => "BadKey",
        OpFault::SeveralChanges => "SeveralChanges",
        OpFault::NothingSet => "NothingSet",
        OpFault::InsertAssert => "InsertAssert",
        OpFault::TooDeep => "TooDeep",
        OpFault::BadInsert => "BadInsert",
        OpFault::BadUpdate => "BadUpdate",
        OpFault::BadAssert => "BadAssert",
    }
}

/// Whether the text is a number and a fault of an operation.
fn is_op_fault(op: u32, why: OpFault, expected: &str) -> bool {
    match expected.split_once(' ') {
        Some((number, name)) => number.parse::<u32>() == Ok(op) && name == op_fault(why),
        None => false,
    }
}

fn is_fault(fault: &OpsFault, expected: &str) -> bool {
    match fault {
        OpsFault::NotList => expected == "NotList",
        OpsFault::Empty => expected == "Empty",
        OpsFault::TooMany => expected == "TooMany",
        OpsFault::At { op, why } => is_op_fault(*op, *why, expected),
        OpsFault::OutOfMemory => false,
    }
}

/// Whether the operations print as expected, or the fault is that.
fn is_read_as(alloc: Global, text: &[u8], expected: &str) -> Result<bool, Fail> {
    let value = read_value(alloc, text)?;
    match Ops::read(alloc, &value) {
        Ok(ops) => Ok(is_printed_as(alloc, &ops, expected)?),
        Err(fault) => Ok(is_fault(&fault, expected)),
    }
}

fn is_printed_as(alloc: Global, ops: &Ops, expected: &str) -> Result<bool, OutOfMemory> {
    let value = ops.copy(alloc)?.to_value(alloc)?;
    Ok(expected == "read" || print_value(alloc, &value)?.as_slice() == expected.as_bytes())
}

#[test]
fn operations_are_read(rt: HostRuntime) -> Result<(), Fail> {
    for (text, expected) in &READINGS {
        assert!(rt;
            is_read_as(rt.alloc(), text.as_bytes(), expected)?,
            "{text}"
        );
    }
    Ok(())
}

fn push_times(out: &mut Vec<u8>, times: usize, piece: &str) -> Result<(), OutOfMemory> {
    for _ in 0..times {
        out.extend_from_slice(piece.as_bytes())?;
    }
    Ok(())
}

/// The text with so many nested lists in the place of its `~`.
fn nested(alloc: Global, text: &str, depth: usize) -> Result<Vec<u8>, Fail> {
    let (before, after) = text.split_once('~').ok_or("no ~")?;
    let mut out = Vec::from_slice(alloc, before.as_bytes())?;
    push_times(&mut out, depth, "[")?;
    push_times(&mut out, depth, "]")?;
    push_times(&mut out, 1, after)?;
    Ok(out)
}

/// A list of what stands first, so many removals, and what stands last.
fn counted(alloc: Global, first: &str, times: usize, last: &str) -> Result<Vec<u8>, OutOfMemory> {
    let mut text = Vec::from_slice(alloc, b"[")?;
    push_times(&mut text, 1, first)?;
    push_times(&mut text, times, r#"{"c":"k","d":1,"r":true},"#)?;
    push_times(&mut text, 1, last)?;
    push_times(&mut text, 1, "]")?;
    Ok(text)
}

#[test]
fn operations_have_limits(rt: HostRuntime) -> Result<(), Fail> {
    for (text, depth, expected) in &DEPTHS {
        let nested = nested(rt.alloc(), text, *depth)?;
        assert!(rt;
            is_read_as(rt.alloc(), nested.as_slice(), expected)?,
            "{text}"
        );
    }
    for (first, times, last, expected) in &COUNTS {
        let text = counted(rt.alloc(), first, *times, last)?;
        assert!(rt;
            is_read_as(rt.alloc(), text.as_slice(), expected)?,
            "{expected}"
        );
    }
    Ok(())
}
