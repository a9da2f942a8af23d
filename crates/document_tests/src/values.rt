//! Values, their text, bodies and equality.
use doc_value::{
    BodyFault, DocId, OutOfMemory, Text, Value, ValueFault, print_value, read_body, read_value,
};
use std::alloc::Global;
use std::test::Fail;

/// JSON texts, and their values printed or their faults.
static VALUES: [(&[u8], &[u8]); 58] = [
    (b"null", b"null"),
    (b" true\n", b"true"),
    (b"false", b"false"),
    (b"0", b"0"),
    (b"-1", b"-1"),
    (b"9223372036854775807", b"9223372036854775807"),
    (b"-9223372036854775808", b"-9223372036854775808"),
    (b"9223372036854775808", b"NotWhole"),
    (b"-9223372036854775809", b"NotWhole"),
    (b"18446744073709551616", b"NotWhole"),
    (b"1e2", b"NotWhole"),
    (b"1E+2", b"NotWhole"),
    (b"1.0", b"NotWhole"),
    (b"0.5", b"NotWhole"),
    (b"-0", b"NotWhole"),
    (b"[[],{\"a\":[2.5]}]", b"NotWhole"),
    (b"1e400", b"NotJson"),
    (b"01", b"NotJson"),
    (b"+1", b"NotJson"),
    (b"-", b"NotJson"),
    (b"1.", b"NotJson"),
    (b".5", b"NotJson"),
    (b"", b"NotJson"),
    (b" ", b"NotJson"),
    (b"1 2", b"NotJson"),
    (b"nul", b"NotJson"),
    (b"True", b"NotJson"),
    (b"[1,]", b"NotJson"),
    (b"[1", b"NotJson"),
    (b"{\"a\":1,}", b"NotJson"),
    (b"{a:1}", b"NotJson"),
    (b"'a'", b"NotJson"),
    (b"\xef\xbb\xbf1", b"NotJson"),
    (b"\"\xff\"", b"NotJson"),
    (b"\"\t\"", b"NotJson"),
    (b"\"\\ud800\"", b"NotJson"),
    (b"\"\\x41\"", b"NotJson"),
    (b"\"\"", b"\"\""),
    (b"\"\\\"\\\\\\/\"", b"\"\\\"\\\\/\""),
    (b"\"\\b\\t\\n\\f\\r\"", b"\"\\b\\t\\n\\f\\r\""),
    (b"\"\\u0000\\u000b\\u001f\"", b"\"\\u0000\\u000b\\u001f\""),
    (b"\"\\u0041\\u00e9\"", b"\"A\xc3\xa9\""),
    (b"\"\\ud83d\\ude00\"", b"\"\xf0\x9f\x98\x80\""),
    (b"\"\x7f\xc3\xa9\"", b"\"\x7f\xc3\xa9\""),
    (b"[ ]", b"[]"),
    (b"{ }", b"{}"),
    (b"[1, [2, \"x\"], {}]", b"[1,[2,\"x\"],{}]"),
    (b"{\"b\": 1, \"a\": []}", b"{\"a\":[],\"b\":1}"),
    (
        b"{\"B\":1,\"\xc3\xa9\":2,\"a\":3,\"aa\":4}",
        b"{\"B\":1,\"a\":3,\"aa\":4,\"\xc3\xa9\":2}",
    ),
    (b"{\"a\\n\":1}", b"{\"a\\n\":1}"),
    (b"{\"a\":1,\"a\":2}", b"{\"a\":2}"),
    (b"{\"a\":1.5,\"a\":2}", b"{\"a\":2}"),
    (b"{\"a\":{\"\":1},\"a\":2}", b"{\"a\":2}"),
    (b"{\"a\":2,\"a\":1.5}", b"NotWhole"),
    (b"{\"\":1}", b"BadName"),
    (b"[{\"a\\u0000b\":1}]", b"BadName"),
    (b"{\"a\":1.5,\"b\":{\"\":1}}", b"BadName"),
    (b"{\"a\":1.5,\"\":", b"NotJson"),
];

/// Nestings, and what an object of them is as a value and as a body.
static LIMITS: [(usize, &[u8], &[u8]); 7] = [
    (1, b"read", b"read"),
    (90, b"read", b"read"),
    (91, b"read", b"TooDeep"),
    (100, b"read", b"TooDeep"),
    (101, b"TooDeep", b"no value"),
    (127, b"TooDeep", b"no value"),
    (128, b"NotJson", b"no value"),
];

/// Values, and their bodies for the id `x` printed, or the refused name, or another fault.
static BODIES: [(&[u8], &[u8]); 26] = [
    (b"{}", b"{}"),
    (b"{\"b\":1,\"a\":2}", b"{\"a\":2,\"b\":1}"),
    (b"{\"_id\":\"x\",\"a\":1}", b"{\"a\":1}"),
    (b"{\"_id\":\"x\"}", b"{}"),
    (b"{\"_id\":\"y\",\"a\":1}", b"_id"),
    (b"{\"_id\":7}", b"_id"),
    (b"{\"_id\":null}", b"_id"),
    (b"{\"_id\":[\"x\"]}", b"_id"),
    (b"{\"a\":{\"_id\":7}}", b"{\"a\":{\"_id\":7}}"),
    (b"{\"_idx\":7}", b"{\"_idx\":7}"),
    (b"{\"a.b\":1}", b"a.b"),
    (b"{\".\":1}", b"."),
    (b"{\"$a\":1}", b"$a"),
    (b"{\"a$\":1}", b"{\"a$\":1}"),
    (b"{\"txn-revno\":1}", b"txn-revno"),
    (b"{\"txn-\":1}", b"txn-"),
    (b"{\"txn\":1}", b"{\"txn\":1}"),
    (b"{\"a\":{\"txn-queue\":1}}", b"{\"a\":{\"txn-queue\":1}}"),
    (b"{\"a\":[{\"b\":{\"$c\":1}}]}", b"$c"),
    (b"{\"a\":{\"z.\":1},\"b.\":1}", b"z."),
    (b"{\"a\":{\"b\":{\"c.\":1}},\"$d\":1}", b"$d"),
    (b"{\"a.\":{\"b.\":1}}", b"a."),
    (b"{\"$z\":1,\"_id\":7}", b"$z"),
    (b"[]", b"NotObject"),
    (b"1", b"NotObject"),
    (b"null", b"NotObject"),
];

/// The same for the id 7.
static NUMBERED: [(&[u8], &[u8]); 2] = [
    (b"{\"_id\":7,\"a\":1}", b"{\"a\":1}"),
    (b"{\"_id\":\"7\"}", b"_id"),
];

/// Two values, and whether they are equal.
static PAIRS: [(&[u8], &[u8], bool); 8] = [
    (b"{\"a\":1,\"b\":[2]}", b"{\"b\":[2],\"a\":1}", true),
    (b"{\"a\":1}", b"{\"a\":2}", false),
    (b"{\"a\":1}", b"{\"b\":1}", false),
    (b"{\"a\":1}", b"{\"a\":1,\"b\":1}", false),
    (b"[1,2]", b"[2,1]", false),
    (b"1", b"\"1\"", false),
    (b"null", b"false", false),
    (b"[]", b"{}", false),
];

fn value_fault(fault: &ValueFault) -> &'static [u8] {
    match fault {
        ValueFault::NotJson => b"NotJson",
        ValueFault::TooDeep => b"TooDeep",
        ValueFault::BadName => b"BadName",
        ValueFault::NotWhole => b"NotWhole",
        ValueFault::OutOfMemory => b"OutOfMemory",
    }
}

/// Whether the value of a JSON text prints as expected, and its copy is equal; or the fault is that.
fn is_read_as(alloc: Global, text: &[u8], expected: &[u8]) -> Result<bool, OutOfMemory> {
    match read_value(alloc, text) {
        Ok(value) => is_printed_as(alloc, &value, expected),
        Err(fault) => Ok(value_fault(&fault) == expected),
    }
}

fn is_printed_as(alloc: Global, value: &Value, expected: &[u8]) -> Result<bool, OutOfMemory> {
    let copy = value.copy(alloc)?;
    let shown = print_value(alloc, &copy)?;
    Ok(copy.equals(value) && shown.as_slice() == expected)
}

fn are_equal(alloc: Global, first: &[u8], second: &[u8]) -> Result<bool, Fail> {
    let first = read_value(alloc, first)?;
    let second = read_value(alloc, second)?;
    Ok(first.equals(&second))
}

#[test]
fn values_are_read_printed_and_compared(rt: HostRuntime) -> Result<(), Fail> {
    for (text, expected) in &VALUES {
        assert!(rt; is_read_as(rt.alloc(), text, expected)?);
    }
    for (first, second, same) in &PAIRS {
        assert!(rt; are_equal(rt.alloc(), first, second)? == *same);
    }
    Ok(())
}

/// A number inside so many lists or objects.
fn nested(alloc: Global, depth: usize, open: &[u8], close: u8) -> Result<Vec<u8>, OutOfMemory> {
    let mut text = Vec::new(alloc);
    for _ in 0..depth {
        text.extend_from_slice(open)?;
    }
    text.push(b'1')?;
    for _ in 0..depth {
        text.push(close)?;
    }
    Ok(text)
}

/// Whether the text is read as itself where `read` is expected, and else as told.
fn is_value_or(alloc: Global, text: &[u8], expected: &[u8]) -> Result<bool, OutOfMemory> {
    is_read_as(
        alloc,
        text,
        if expected == b"read".as_slice() {
            text
        } else {
            expected
        },
    )
}

fn is_body_or(alloc: Global, text: &[u8], expected: &[u8]) -> Result<bool, OutOfMemory> {
    let expected = if expected == b"read".as_slice() {
        text
    } else {
        expected
    };
    is_body(alloc, text, &DocId::Int(0), expected)
}

#[test]
fn nesting_has_its_limits(rt: HostRuntime) -> Result<(), Fail> {
    for (depth, as_value, as_body) in &LIMITS {
        let text = nested(rt.alloc(), *depth, b"[", b']')?;
        assert!(rt; is_value_or(rt.alloc(), text.as_slice(), as_value)?);
        let text = nested(rt.alloc(), *depth, b"{\"a\":", b'}')?;
        assert!(rt; is_body_or(rt.alloc(), text.as_slice(), as_body)?);
    }
    Ok(())
}

fn body_fault(fault: &BodyFault) -> &[u8] {
    match fault {
        BodyFault::NotObject => b"NotObject",
        BodyFault::TooDeep => b"TooDeep",
        BodyFault::BadField(name) => name.as_bytes(),
        BodyFault::OutOfMemory => b"OutOfMemory",
    }
}

/// Whether the body of that id prints as expected, or the fault is that.
fn is_body(alloc: Global, text: &[u8], id: &DocId, expected: &[u8]) -> Result<bool, OutOfMemory> {
    let Ok(value) = read_value(alloc, text) else {
        return Ok(expected == b"no value".as_slice());
    };
    match read_body(alloc, &value, id) {
        Ok(body) => is_printed_as(alloc, &body, expected),
        Err(fault) => Ok(body_fault(&fault) == expected),
    }
}

#[test]
fn bodies_are_read(rt: HostRuntime) -> Result<(), Fail> {
    let id = DocId::Text(Text::from_str(rt.alloc(), "x")?).copy(rt.alloc())?;
    for (text, expected) in &BODIES {
        assert!(rt; is_body(rt.alloc(), text, &id, expected)?);
    }
    for (text, expected) in &NUMBERED {
        assert!(rt; is_body(rt.alloc(), text, &DocId::Int(7), expected)?);
    }
    Ok(())
}
