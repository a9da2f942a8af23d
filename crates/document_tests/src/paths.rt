//! Paths, and the fields that paths and names lead to.
use doc_value::{
    Lookup, Named, OutOfMemory, Path, PathFault, Text, Value, get, is_ordered, is_path,
    print_value, read_value,
};
use sqlite_items::Items;
use std::alloc::Global;
use std::test::Fail;

/// Paths with a bar after each part, or their faults.
static PATHS: [(&[u8], &[u8]); 22] = [
    (b"a", b"a|"),
    (b"a.b.c", b"a|b|c|"),
    (b"a..b", b"EmptyPart"),
    (b"", b"EmptyPart"),
    (b".", b"EmptyPart"),
    (b".a", b"EmptyPart"),
    (b"a.", b"EmptyPart"),
    (b"$a..b", b"EmptyPart"),
    (b"$a", b"BadPart"),
    (b"a.$b", b"BadPart"),
    (b"a$.b", b"a$|b|"),
    (b"a\0", b"BadPart"),
    (b"_id.$b", b"BadPart"),
    (b"\xff", b"BadPart"),
    (b"a..\xff", b"BadPart"),
    (b"_id", b"Reserved"),
    (b"_id.a", b"Reserved"),
    (b"txn-revno", b"Reserved"),
    (b"txn-", b"Reserved"),
    (b"txn", b"txn|"),
    (b"a.txn-x", b"a|txn-x|"),
    (b"a._id", b"a|_id|"),
];

/// Paths, and what they lead to in `PLACED`.
static PLACES: [(&str, &[u8]); 16] = [
    ("B", b"0"),
    ("a.b.c", b"1"),
    ("a.b", b"{\"c\":1}"),
    ("a.n", b"null"),
    ("ab", b"2"),
    ("l", b"[{\"x\":1}]"),
    ("z", b"6"),
    ("A", b"missing"),
    ("a.n.x", b"missing"),
    ("a.x", b"missing"),
    ("aa", b"missing"),
    ("l.0", b"missing"),
    ("l.0.x", b"missing"),
    ("l.x", b"missing"),
    ("t.x", b"missing"),
    ("zz", b"missing"),
];

static PLACED: &[u8] =
    b"{\"B\":0,\"a\":{\"b\":{\"c\":1},\"n\":null},\"ab\":2,\"l\":[{\"x\":1}],\"t\":\"x\",\"z\":6}";

/// The names of an object's fields, and whether they are in order.
static NAMES: [(&str, bool); 7] = [
    ("a", true),
    ("a b c", true),
    ("a ab b", true),
    ("b a", false),
    ("a c b", false),
    ("ab a", false),
    ("a a", false),
];

/// A path of so many bytes, and whether it is one.
static LENGTHS: [(usize, bool); 2] = [(1024, true), (1025, false)];

fn path_fault(fault: &PathFault) -> &'static [u8] {
    match fault {
        PathFault::EmptyPart => b"EmptyPart",
        PathFault::BadPart => b"BadPart",
        PathFault::Reserved => b"Reserved",
        PathFault::OutOfMemory => b"OutOfMemory",
    }
}

/// The parts, a bar after each.
fn barred(alloc: Global, path: &Path) -> Result<Vec<u8>, OutOfMemory> {
    let mut shown = Vec::new(alloc);
    for part in path.parts() {
        shown.extend_from_slice(part.as_bytes())?;
        shown.push(b'|')?;
    }
    Ok(shown)
}

/// Whether the parts of the path are those expected, or the fault is that.
fn is_read_as(alloc: Global, text: &[u8], expected: &[u8]) -> Result<bool, OutOfMemory> {
    match Path::read(alloc, text) {
        Ok(path) => Ok(barred(alloc, &path.copy(alloc)?)?.as_slice() == expected),
        Err(fault) => Ok(path_fault(&fault) == expected),
    }
}

fn is_long_path(alloc: Global, length: usize) -> Result<bool, OutOfMemory> {
    let text = vec![in alloc; b'a'; length]?;
    is_path(alloc, text.as_slice())
}

#[test]
fn paths_are_read(rt: HostRuntime) -> Result<(), Fail> {
    for (text, expected) in &PATHS {
        assert!(rt; is_read_as(rt.alloc(), text, expected)?);
    }
    for (length, is) in &LENGTHS {
        assert!(rt; is_long_path(rt.alloc(), *length)? == *is);
    }
    Ok(())
}

/// Whether what was found prints as expected.
fn is_shown(alloc: Global, found: Option<&Value>, expected: &[u8]) -> Result<bool, OutOfMemory> {
    match found {
        Some(value) => Ok(print_value(alloc, value)?.as_slice() == expected),
        None => Ok(expected == b"missing".as_slice()),
    }
}

/// Whether the path leads to what is expected, by its parts and by its text.
fn leads_to(alloc: Global, value: &Value, text: &str, expected: &[u8]) -> Result<bool, Fail> {
    let path = Path::read(alloc, text.as_bytes()).ok().ok_or("no path")?;
    let halved = Lookup::halving(value).get(text);
    let in_turn = Lookup::in_turn(value).get(text);
    Ok(
        is_shown(alloc, get(value, &path), expected)?
            && is_shown(alloc, halved, expected)?
            && is_shown(alloc, in_turn, expected)?,
    )
}

#[test]
fn paths_are_followed(rt: HostRuntime) -> Result<(), Fail> {
    let value = read_value(rt.alloc(), PLACED)?;
    for (text, expected) in &PLACES {
        assert!(rt; leads_to(rt.alloc(), &value, text, expected)?, "{text}");
    }
    Ok(())
}

fn object(alloc: Global, names: &str) -> Result<Value, OutOfMemory> {
    let mut fields = Items::new(alloc);
    for name in names.split(' ') {
        let name = Text::from_str(alloc, name)?;
        let value = Value::Int(1);
        fields.push(Named { name, value })?;
    }
    Ok(Value::Object(fields))
}

/// Whether the order of the names is told, and `a` found among them.
fn is_order_told(alloc: Global, names: &str, ordered: bool) -> Result<bool, OutOfMemory> {
    let object = object(alloc, names)?;
    let told = is_ordered(&object);
    Ok(told == ordered && Lookup::halving(&object).field(b"a").is_some())
}

#[test]
fn order_is_told(rt: HostRuntime) -> Result<(), Fail> {
    for (names, ordered) in &NAMES {
        assert!(rt; is_order_told(rt.alloc(), names, *ordered)?, "{names}");
    }
    Ok(())
}
