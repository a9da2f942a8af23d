//! Updates as they are read, and what only a call shows of bodies after them. The operators on bodies of
//! documents stand as a script in `examples/update_rows.jsonl`.
use doc_apply::{apply, fits};
use doc_update::{Update, UpdateFault};
use doc_value::{OutOfMemory, Value, print_value, read_value};
use std::alloc::Global;
use std::test::Fail;

/// Values, and `read` where they are updates, or the fault with the name or path that it names.
static READINGS: [(&str, &str); 66] = [
    (r#"{"$set":{"a":1}}"#, "read"),
    (
        r#"{"$set":{"a.b":1,"a.c":{"d":[]}},"$unset":{"b":null}}"#,
        "read",
    ),
    ("1", "NotOperators"),
    ("null", "NotOperators"),
    (r#"[{"$set":{"a":1}}]"#, "NotOperators"),
    (r#"{"a":1}"#, "NotOperators"),
    (r#"{"a":{"b":1}}"#, "NotOperators"),
    (r#"{"$set":1}"#, "NotOperators"),
    (r#"{"$set":["a"]}"#, "NotOperators"),
    (r#"{"$set":{"a":1},"b":{"c":1}}"#, "NotOperators"),
    (r#"{"$set":{},"a":1}"#, "NotOperators"),
    (r#"{"$mul":{"a":2},"$set":null}"#, "NotOperators"),
    ("{}", "Empty"),
    (r#"{"$set":{}}"#, "Empty"),
    (r#"{"$inc":{"a":"x"},"$set":{}}"#, "Empty"),
    (r#"{"$mul":{}}"#, "Empty"),
    (r#"{"$mul":{"a":2}}"#, "UnknownOperator $mul"),
    (r#"{"$":{"a":2}}"#, "UnknownOperator $"),
    (r#"{"$Set":{"a":2}}"#, "UnknownOperator $Set"),
    (r#"{"$sets":{"a":2}}"#, "UnknownOperator $sets"),
    (r#"{"$addtoset":{"a":2}}"#, "UnknownOperator $addtoset"),
    (
        r#"{"$mul":{"a..b":2},"$set":{"b.":1}}"#,
        "UnknownOperator $mul",
    ),
    (r#"{"$inc":{"a..b":1},"$mul":{"a":2}}"#, "BadPath a..b"),
    (r#"{"$set":{"a.":1}}"#, "BadPath a."),
    (r#"{"$set":{".a":1}}"#, "BadPath .a"),
    (r#"{"$set":{"a.$b":1}}"#, "BadPath a.$b"),
    (r#"{"$set":{"$a":1}}"#, "BadPath $a"),
    (r#"{"$set":{"_id":1}}"#, "BadPath _id"),
    (r#"{"$set":{"_id.x":1}}"#, "BadPath _id.x"),
    (r#"{"$set":{"a._id":1}}"#, "read"),
    (r#"{"$unset":{"txn-queue":1}}"#, "BadPath txn-queue"),
    (r#"{"$unset":{"a.txn-queue":1}}"#, "read"),
    (r#"{"$inc":{"b..":"x","a":"y"}}"#, "BadOperand a"),
    (r#"{"$inc":{"a":1,"b..":"x"}}"#, "BadPath b.."),
    (r#"{"$inc":{"a":null}}"#, "BadOperand a"),
    (r#"{"$inc":{"a":"1"}}"#, "BadOperand a"),
    (r#"{"$inc":{"a":[1]}}"#, "BadOperand a"),
    (r#"{"$inc":{"a":-9223372036854775808}}"#, "read"),
    (r#"{"$pull":{"a":{}}}"#, "BadOperand a"),
    (r#"{"$pull":{"a":{"b":1}}}"#, "BadOperand a"),
    (r#"{"$pull":{"a":[{"b":1}]}}"#, "read"),
    (r#"{"$pull":{"a":[{"b.c":1}]}}"#, "BadOperand a"),
    (r#"{"$pull":{"a":null}}"#, "read"),
    (r#"{"$pop":{"a":1}}"#, "read"),
    (r#"{"$pop":{"a":-1}}"#, "read"),
    (r#"{"$pop":{"a":0}}"#, "BadOperand a"),
    (r#"{"$pop":{"a":2}}"#, "BadOperand a"),
    (r#"{"$pop":{"a":"1"}}"#, "BadOperand a"),
    (r#"{"$set":{"a":{"b.c":1}}}"#, "BadOperand a"),
    (r#"{"$set":{"a":{"b":[{"$c":1}]}}}"#, "BadOperand a"),
    (r#"{"$set":{"a":{"b$":1}}}"#, "read"),
    (r#"{"$unset":{"a":{"$b":1}}}"#, "BadOperand a"),
    (r#"{"$push":{"a":{"$each":[1]}}}"#, "BadOperand a"),
    (r#"{"$addToSet":{"a":{"x.y":1}}}"#, "BadOperand a"),
    (r#"{"$set":{"a":1,"a.b":2}}"#, "Conflict a.b"),
    (r#"{"$set":{"a":1},"$inc":{"a.b":1}}"#, "Conflict a"),
    (r#"{"$inc":{"a":1},"$set":{"a":1}}"#, "Conflict a"),
    (
        r#"{"$inc":{"a":1,"b":1},"$set":{"b.c":1,"a":1}}"#,
        "Conflict a",
    ),
    (r#"{"$inc":{"a.b":1},"$set":{"a":1,"a.b":2}}"#, "Conflict a"),
    (r#"{"$set":{"a":1,"a-b":2,"a.b":3}}"#, "Conflict a.b"),
    (r#"{"$set":{"a.b":1,"a.bc":2,"a.b-c":3,"ab":4}}"#, "read"),
    (r#"{"$set":{"a.b":1},"$unset":{"a.c":1,"b.a":1}}"#, "read"),
    (
        r#"{"$set":{"a":1,"b":2,"c.d.e":3},"$unset":{"c":1}}"#,
        "Conflict c",
    ),
    (
        r#"{"$pop":{"c.d":1},"$set":{"b":2,"c.d.e":3},"$unset":{"b":1}}"#,
        "Conflict c.d.e",
    ),
    (r#"{"$inc":{"a":"x"},"$set":{"a":1}}"#, "BadOperand a"),
    (r#"{"$inc":{"a":1},"$set":{"a":1,"b.":1}}"#, "BadPath b."),
];

/// Updates of what is no object, and what it is afterwards, or `unfit`.
static SCALARS: [(&str, &str, &str); 5] = [
    (r#"{"$set":{"x":1}}"#, "7", "unfit"),
    (r#"{"$unset":{"x":1}}"#, "7", "7"),
    (r#"{"$unset":{"x":1}}"#, "[]", "[]"),
    (r#"{"$pop":{"x.y":1},"$pull":{"x.z":1}}"#, "null", "null"),
    (r#"{"$push":{"x":1}}"#, "null", "unfit"),
];

/// An operator, how many parts its path has, how deep its operand nests and a list beside, and whether
/// that fits.
static LEVELS: [(&str, [usize; 3], bool); 22] = [
    ("$set", [1, 89, 1], true),
    ("$set", [1, 90, 1], false),
    ("$set", [90, 0, 1], true),
    ("$set", [91, 0, 1], false),
    ("$set", [45, 45, 1], true),
    ("$set", [45, 46, 1], false),
    ("$set", [1, 91, 1], false),
    ("$push", [1, 88, 1], true),
    ("$push", [1, 89, 1], false),
    ("$push", [89, 0, 1], true),
    ("$push", [90, 0, 1], false),
    ("$addToSet", [1, 88, 1], true),
    ("$addToSet", [1, 89, 1], false),
    ("$unset", [100, 90, 1], true),
    ("$unset", [1, 91, 1], true),
    ("$pull", [100, 0, 1], true),
    ("$inc", [90, 0, 1], true),
    ("$inc", [91, 0, 1], false),
    ("$set", [1, 89, 89], true),
    ("$set", [1, 1, 90], false),
    ("$unset", [1, 1, 89], true),
    ("$unset", [1, 1, 90], false),
];

fn push_times(out: &mut Vec<u8>, times: usize, piece: &str) -> Result<(), OutOfMemory> {
    for _ in 0..times {
        out.extend_from_slice(piece.as_bytes())?;
    }
    Ok(())
}

/// An update by one operator, at a path of that many parts, with an operand of that many levels.
fn deep_update(
    alloc: Global,
    operator: &str,
    parts: usize,
    levels: usize,
) -> Result<Vec<u8>, OutOfMemory> {
    let mut text = Vec::new(alloc);
    push_times(&mut text, 1, "{\"")?;
    push_times(&mut text, 1, operator)?;
    push_times(&mut text, 1, "\":{\"")?;
    for i in 0..parts {
        push_times(&mut text, 1, if i == 0 { "a" } else { ".a" })?;
    }
    push_times(&mut text, 1, "\":")?;
    push_times(&mut text, levels, "[")?;
    push_times(&mut text, 1, "1")?;
    push_times(&mut text, levels, "]")?;
    push_times(&mut text, 1, "}}")?;
    Ok(text)
}

/// An object with a list of that many levels.
fn deep_body(alloc: Global, levels: usize) -> Result<Vec<u8>, OutOfMemory> {
    let mut text = Vec::new(alloc);
    push_times(&mut text, 1, "{\"b\":")?;
    push_times(&mut text, levels, "[")?;
    push_times(&mut text, levels, "]")?;
    push_times(&mut text, 1, "}")?;
    Ok(text)
}

/// A fault, and the name or path that it names.
fn told(fault: &UpdateFault) -> (&'static str, &str) {
    match fault {
        UpdateFault::NotOperators => ("NotOperators", ""),
        UpdateFault::Empty => ("Empty", ""),
        UpdateFault::UnknownOperator(name) => ("UnknownOperator", name.as_str()),
        UpdateFault::BadPath(path) => ("BadPath", path.as_str()),
        UpdateFault::BadOperand(path) => ("BadOperand", path.as_str()),
        UpdateFault::Conflict(path) => ("Conflict", path.as_str()),
        UpdateFault::OutOfMemory => ("OutOfMemory", ""),
    }
}

fn is_read_as(alloc: Global, text: &str, expected: &str) -> Result<bool, Fail> {
    let value = read_value(alloc, text.as_bytes())?;
    match Update::read(alloc, &value) {
        Ok(update) => Ok(expected == "read" && update.copy(alloc)?.source().equals(&value)),
        Err(fault) => Ok(told(&fault) == expected.split_once(' ').unwrap_or((expected, ""))),
    }
}

#[test]
fn updates_are_read(rt: HostRuntime) -> Result<(), Fail> {
    for (text, expected) in &READINGS {
        assert!(rt; is_read_as(rt.alloc(), text, expected)?, "{text}");
    }
    Ok(())
}

fn read_update(alloc: Global, text: &[u8]) -> Result<Update, Fail> {
    let value = read_value(alloc, text)?;
    Ok(Update::read(alloc, &value).ok().ok_or("no update")?)
}

/// The value after the update, and whether that fits it.
fn updated(alloc: Global, update: &[u8], value: &[u8]) -> Result<(Option<Value>, bool), Fail> {
    let update = read_update(alloc, update)?;
    let value = read_value(alloc, value)?;
    Ok((apply(alloc, &update, &value)?, fits(&update, &value)))
}

fn becomes(alloc: Global, update: &str, value: &str, expected: &str) -> Result<bool, Fail> {
    match updated(alloc, update.as_bytes(), value.as_bytes())? {
        (Some(after), true) => Ok(print_value(alloc, &after)?.as_slice() == expected.as_bytes()),
        (None, false) => Ok(expected == "unfit"),
        _ => Ok(false),
    }
}

fn fits_as_told(
    alloc: Global,
    operator: &str,
    [parts, levels, beside]: [usize; 3],
    fit: bool,
) -> Result<bool, Fail> {
    let update = deep_update(alloc, operator, parts, levels)?;
    let body = deep_body(alloc, beside)?;
    let (after, told) = updated(alloc, update.as_slice(), body.as_slice())?;
    Ok(after.is_some() == fit && told == fit)
}

#[test]
fn updates_are_applied(rt: HostRuntime) -> Result<(), Fail> {
    for (update, value, expected) in &SCALARS {
        assert!(rt; becomes(rt.alloc(), update, value, expected)?, "{update}");
    }
    for (operator, levels, fit) in &LEVELS {
        assert!(rt;
            fits_as_told(rt.alloc(), operator, *levels, *fit)?,
            "{operator}"
        );
    }
    Ok(())
}
