//! Whether a query holds on a body. Nothing here takes memory.
ghost use Rattle.std.specs.Prelude.{◌≡◌, map};
ghost use Rattle.doc_value.specs.Fields.{judged};
ghost use Rattle.doc_query.specs.Operators.{logic_named};
ghost use Rattle.doc_query.specs.Meaning.{holds, holds_as, every, some, logic_holds, name_holds, names_hold, every_holds, some_holds, beside_meaning};

use crate::condition::is_met;
use crate::operator::{Logic, is_operator};
use crate::query::Query;
use doc_value::{Field, Lookup, Text, Value};

/// From so many names on it pays to learn first whether a body's names are in order.
const MANY_NAMES: u64 = 16;

/// Whether the query holds on the body. Where it asks for many names, one pass tells whether the body's
/// names are in order, as those of all bodies that were read are.
pub fn matches(query: &Query, body: &Value) -> bool
    ensures { result ≡ holds query.now body.now }
{
    let query = query.source();
    if count_names(query) >= MANY_NAMES {
        query_holds(query, &Lookup::halving(body))
    } else {
        query_holds(query, &Lookup::in_turn(body))
    }
}

/// How many names stand in a value, at every depth.
#[cycle(counting)]
fn count_names(value: &Value) -> u64 {
    match value {
        Value::Null => 0,
        Value::Bool(_) => 0,
        Value::Int(_) => 0,
        Value::Text(_) => 0,
        Value::List(items) => count_in_items(items.as_slice()),
        Value::Object(fields) => count_in_fields(fields.as_slice()),
    }
}

#[cycle(counting)]
fn count_in_items(items: &[Value]) -> u64 {
    let mut count: u64 = 0;
    for item in items {
        count = count.saturating_add(count_names(item));
    }
    count
}

#[cycle(counting)]
fn count_in_fields(fields: &[Field]) -> u64 {
    let mut count = fields.len() as u64;
    for field in fields {
        count = count.saturating_add(count_names(&field.value));
    }
    count
}

#[cycle(meaning)]
#[tactic(auto, using(crate::proofs::Levels::holds_as_level))]
fn query_holds(query: &Value, body: &Lookup) -> bool
    ensures { result ≡ holds query.now body.now }
{
    match query {
        Value::Object(fields) => each_name_holds(fields.as_slice(), body),
        _ => false,
    }
}

#[cycle(meaning)]
fn each_name_holds(fields: &[Field], body: &Lookup) -> bool
    ensures { result ≡ names_hold (map (judged beside_meaning) fields.now) body.now }
{
    for field in fields {
        if !named_holds(&field.name, &field.value, body) {
            return false;
        }
    }
    true
}

#[cycle(meaning)]
fn named_holds(name: &Text, value: &Value, body: &Lookup) -> bool
    ensures { result ≡ name_holds name.now value.now (holds_as value.now) body.now }
{
    if is_operator(name.as_bytes()) {
        joined_hold(name.as_bytes(), value, body)
    } else {
        is_met(value, body.get(name.as_str()))
    }
}

#[cycle(meaning)]
fn joined_hold(name: &[u8], queries: &Value, body: &Lookup) -> bool
    ensures { result ≡ logic_holds (logic_named name.now) (holds_as queries.now) body.now }
{
    match Logic::read(name) {
        None => false,
        Some(Logic::And) => all_hold(queries, body),
        Some(Logic::Or) => some_hold(queries, body),
        Some(Logic::Nor) => !some_hold(queries, body),
    }
}

#[cycle(meaning)]
#[tactic(auto, using(crate::proofs::Levels::holds_as_level))]
fn all_hold(queries: &Value, body: &Lookup) -> bool
    ensures { result ≡ holds_as queries.now every body.now }
{
    match queries {
        Value::List(queries) => each_holds(queries.as_slice(), body),
        _ => false,
    }
}

#[cycle(meaning)]
fn each_holds(queries: &[Value], body: &Lookup) -> bool
    ensures { result ≡ every_holds (map beside_meaning queries.now) body.now }
{
    for query in queries {
        if !query_holds(query, body) {
            return false;
        }
    }
    true
}

#[cycle(meaning)]
#[tactic(auto, using(crate::proofs::Levels::holds_as_level))]
fn some_hold(queries: &Value, body: &Lookup) -> bool
    ensures { result ≡ holds_as queries.now some body.now }
{
    match queries {
        Value::List(queries) => any_holds(queries.as_slice(), body),
        _ => false,
    }
}

#[cycle(meaning)]
fn any_holds(queries: &[Value], body: &Lookup) -> bool
    ensures { result ≡ some_holds (map beside_meaning queries.now) body.now }
{
    for query in queries {
        if query_holds(query, body) {
            return true;
        }
    }
    false
}
