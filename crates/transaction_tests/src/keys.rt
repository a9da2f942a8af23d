//! Ids, tokens and keys.
use doc_value::{OutOfMemory, Text, Value, read_value};
use std::alloc::Global;
use std::cmp::Ordering;
use std::test::Fail;
use txn_key::{Doc, Docs, Key, Token, TxnId, distinct_keys, documents_rise};

/// Texts, and those of the tokens that they are, in lower case; empty where there is none.
static TOKENS: [(&str, &str); 8] = [
    (
        "00000000000000000000000A_0000002F",
        "00000000000000000000000a_0000002f",
    ),
    (
        "00000000000000000000000a_ffffffff",
        "00000000000000000000000a_ffffffff",
    ),
    ("00000000000000000000000a-00000000", ""),
    ("00000000000000000000000a_0000000", ""),
    ("0000000000000000000000a_000000000", ""),
    ("00000000000000000000000g_00000000", ""),
    ("00000000000000000000000a_0000000g", ""),
    ("00000000000000000000000a", ""),
];

/// Values as a collection and an id, and whether they are a key.
static KEYS: [(&str, &str, bool); 13] = [
    (r#""k""#, "1", true),
    (r#""_i""#, r#""""#, true),
    (r#""k.$x""#, r#""_id""#, true),
    (r#""""#, "1", false),
    (r#""_id""#, "1", false),
    (r#""k\u0000""#, "1", false),
    ("7", "1", false),
    ("null", "1", false),
    (r#""k""#, r#""a\u0000""#, false),
    (r#""k""#, "null", false),
    (r#""k""#, "true", false),
    (r#""k""#, "[1]", false),
    (r#""k""#, "{}", false),
];

/// The bytes of a collection's name and of an id, and whether they are a key.
static LENGTHS: [(usize, usize, bool); 4] = [
    (119, 1023, true),
    (120, 1024, true),
    (121, 1024, false),
    (120, 1025, false),
];

/// A key, and one that stands after it.
static ORDER: [[&str; 4]; 6] = [
    ["a", "\"z\"", "b", "\"a\""],
    ["a", "9", "aa", "\"\""],
    ["k", "\"z\"", "k", "-5"],
    ["k", "\"B\"", "k", "\"a\""],
    ["k", "\"a\"", "k", "\"aa\""],
    ["k", "9", "k", "10"],
];

/// Whether the text is that of the token which prints so, or none where that is empty.
fn is_token(alloc: Global, text: &str, again: &str) -> Result<bool, OutOfMemory> {
    match Token::read(text.as_bytes()) {
        Some(token) => Ok(token.print(alloc)?.as_slice() == again.as_bytes()),
        None => Ok(again.is_empty()),
    }
}

/// Whether an id and a nonce are read from their digits, and stand as they should.
fn is_id(alloc: Global) -> Result<bool, Fail> {
    let token = Token::read(b"00000000000000000000000a_00010203").ok_or("no token")?;
    let later = TxnId::read(b"010000000000000000000000").ok_or("no id")?;
    let text = token.id.print(alloc)?;
    Ok(
        token.nonce == 66051
            && text.as_slice() == b"00000000000000000000000a".as_slice()
            && token.id.compare(&later) == Ordering::Less
            && TxnId::read(b"00000000000000000000000").is_none(),
    )
}

#[test]
fn tokens_and_ids_are_read(rt: HostRuntime) -> Result<(), Fail> {
    for (text, again) in &TOKENS {
        assert!(rt; is_token(rt.alloc(), text, again)?, "{text}");
    }
    assert!(rt; is_id(rt.alloc())?);
    Ok(())
}

fn is_key(alloc: Global, c: &str, d: &str) -> Result<bool, Fail> {
    let c = read_value(alloc, c.as_bytes())?;
    let d = read_value(alloc, d.as_bytes())?;
    Ok(Key::read(alloc, &c, &d)?.is_some())
}

/// A text of so many bytes.
fn long(alloc: Global, length: usize) -> Result<Value, OutOfMemory> {
    let mut text = String::new(alloc);
    for _ in 0..length {
        text.push('x')?;
    }
    Ok(Value::Text(Text::from_str(alloc, text.as_str())?))
}

fn is_long_key(alloc: Global, c: usize, d: usize) -> Result<bool, OutOfMemory> {
    let c = long(alloc, c)?;
    let d = long(alloc, d)?;
    Ok(Key::read(alloc, &c, &d)?.is_some())
}

#[test]
fn keys_are_read(rt: HostRuntime) -> Result<(), Fail> {
    for (c, d, is) in &KEYS {
        assert!(rt; is_key(rt.alloc(), c, d)? == *is, "{c} {d}");
    }
    for (c, d, is) in &LENGTHS {
        assert!(rt; is_long_key(rt.alloc(), *c, *d)? == *is, "{c} {d}");
    }
    Ok(())
}

fn key(alloc: Global, c: &str, d: &str) -> Result<Key, Fail> {
    let c = Value::Text(Text::from_str(alloc, c)?);
    let d = read_value(alloc, d.as_bytes())?;
    Ok(Key::read(alloc, &c, &d)?.ok_or("no key")?)
}

fn stands_before(alloc: Global, first: [&str; 2], second: [&str; 2]) -> Result<bool, Fail> {
    let lesser = key(alloc, first[0], first[1])?.copy(alloc)?;
    let greater = key(alloc, second[0], second[1])?;
    Ok(lesser.compare(&greater) == Ordering::Less && !lesser.equals(&greater))
}

/// Whether keys of which one stands twice, the greater first, become two in order.
fn are_distinct(alloc: Global, first: &Key, last: &Key) -> Result<bool, OutOfMemory> {
    let keys = Vec::from_slice(alloc, &[last, first, last])?;
    match distinct_keys(alloc, keys)?.as_slice() {
        [one, other] => Ok(one.equals(first) && other.equals(last)),
        _ => Ok(false),
    }
}

fn only_document(alloc: Global, doc: Doc) -> Result<Docs, OutOfMemory> {
    documents_rise();
    let mut docs = Docs::new(alloc);
    docs.push(doc)?;
    docs.copy(alloc)
}

#[test]
fn keys_stand_in_order(rt: HostRuntime) -> Result<(), Fail> {
    for [c, d, other_c, other_d] in &ORDER {
        assert!(rt;
            stands_before(rt.alloc(), [c, d], [other_c, other_d])?,
            "{c} {d}"
        );
    }
    let key = key(rt.alloc(), "k", "2")?;
    assert!(rt; are_distinct(rt.alloc(), &key, &self::key(rt.alloc(), "l", "1")?)?);
    let body = Value::Null;
    assert!(rt;
        only_document(rt.alloc(), Doc { key, body })?
            .as_slice()
            .len()
            == 1
    );
    Ok(())
}
