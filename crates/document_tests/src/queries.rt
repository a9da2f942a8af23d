//! Queries as they are read. Whether they hold stands as a script in `examples/query_rows.jsonl`.
use doc_query::{Query, QueryFault};
use doc_value::read_value;
use std::alloc::Global;
use std::test::Fail;

/// Values, and `read` or the fault with its name or path.
static READINGS: [(&str, &str); 73] = [
    ("5", "NotObject"),
    ("null", "NotObject"),
    ("\"x\"", "NotObject"),
    ("true", "NotObject"),
    ("[{}]", "NotObject"),
    ("{}", "read"),
    ("{\"f\":1}", "read"),
    ("{\"$eq\":1}", "UnknownOperator $eq"),
    ("{\"$not\":{\"$eq\":1}}", "UnknownOperator $not"),
    ("{\"$foo\":1}", "UnknownOperator $foo"),
    ("{\"$\":1}", "UnknownOperator $"),
    ("{\"$AND\":[{}]}", "UnknownOperator $AND"),
    ("{\"$and\":[]}", "EmptyList $and"),
    ("{\"$or\":[]}", "EmptyList $or"),
    ("{\"$nor\":[]}", "EmptyList $nor"),
    ("{\"$or\":{}}", "BadOperand $or"),
    ("{\"$and\":5}", "BadOperand $and"),
    ("{\"$nor\":null}", "BadOperand $nor"),
    ("{\"$or\":[{},5]}", "BadOperand $or"),
    ("{\"$and\":[[]]}", "BadOperand $and"),
    ("{\"$nor\":[{},{\"a\":1}]}", "read"),
    ("{\"$nor\":[{\"$or\":[]}]}", "EmptyList $or"),
    ("{\"$or\":[{\"$and\":[5]}]}", "BadOperand $and"),
    ("{\"$or\":[{\"f\":{\"$size\":-1}},5]}", "BadOperand $size"),
    ("{\"$or\":[5,{\"f\":{\"$size\":-1}}]}", "BadOperand $or"),
    ("{\"a..b\":1}", "BadPath a..b"),
    ("{\".a\":1}", "BadPath .a"),
    ("{\"a.$b\":1}", "BadPath a.$b"),
    ("{\"_id\":1}", "BadPath _id"),
    ("{\"_id.x\":1}", "BadPath _id.x"),
    ("{\"txn-queue\":1}", "BadPath txn-queue"),
    ("{\"a._id\":1,\"a.txn-x\":1}", "read"),
    ("{\"_id\":{\"$foo\":1,\"x\":2}}", "BadPath _id"),
    ("{\"f\":{\"$eq\":1,\"x\":2}}", "Mixed f"),
    ("{\"a.b\":{\"$foo\":1,\"x\":2}}", "Mixed a.b"),
    ("{\"f\":{}}", "read"),
    ("{\"f\":{\"x\":{\"$x\":1}}}", "read"),
    ("{\"f\":[{\"$x\":1}]}", "read"),
    ("{\"f\":{\"$eq\":{\"$x\":1}}}", "read"),
    ("{\"f\":{\"$foo\":1}}", "UnknownOperator $foo"),
    ("{\"f\":{\"$and\":[{}]}}", "UnknownOperator $and"),
    ("{\"f\":{\"$eq \":1}}", "UnknownOperator $eq "),
    ("{\"f\":{\"$exists\":true}}", "read"),
    ("{\"f\":{\"$exists\":1}}", "BadOperand $exists"),
    ("{\"f\":{\"$exists\":null}}", "BadOperand $exists"),
    ("{\"f\":{\"$in\":[],\"$nin\":[]}}", "read"),
    ("{\"f\":{\"$in\":5}}", "BadOperand $in"),
    ("{\"f\":{\"$nin\":{}}}", "BadOperand $nin"),
    ("{\"f\":{\"$size\":0}}", "read"),
    ("{\"f\":{\"$size\":-1}}", "BadOperand $size"),
    ("{\"f\":{\"$size\":\"1\"}}", "BadOperand $size"),
    (
        "{\"f\":{\"$gt\":\"a\",\"$gte\":1,\"$lt\":\"\",\"$lte\":-1}}",
        "read",
    ),
    ("{\"f\":{\"$gt\":null}}", "BadOperand $gt"),
    ("{\"f\":{\"$gte\":[1]}}", "BadOperand $gte"),
    ("{\"f\":{\"$lt\":true}}", "BadOperand $lt"),
    ("{\"f\":{\"$lte\":{}}}", "BadOperand $lte"),
    ("{\"f\":{\"$not\":{\"$not\":{\"$eq\":1}}}}", "read"),
    ("{\"f\":{\"$not\":5}}", "BadOperand $not"),
    ("{\"f\":{\"$not\":[{\"$eq\":1}]}}", "BadOperand $not"),
    ("{\"f\":{\"$not\":{}}}", "BadOperand $not"),
    ("{\"f\":{\"$not\":{\"x\":1}}}", "BadOperand $not"),
    ("{\"f\":{\"$not\":{\"$eq\":1,\"x\":1}}}", "BadOperand $not"),
    ("{\"f\":{\"$not\":{\"$foo\":1}}}", "UnknownOperator $foo"),
    ("{\"f\":{\"$not\":{\"$size\":-1}}}", "BadOperand $size"),
    (
        "{\"f\":{\"$not\":{\"$not\":{\"$in\":7}}}}",
        "BadOperand $in",
    ),
    ("{\"$or\":[],\"a..b\":1}", "EmptyList $or"),
    ("{\"$zz\":1,\"$and\":[]}", "EmptyList $and"),
    ("{\"a..b\":1,\"b\":{\"$x\":1}}", "BadPath a..b"),
    ("{\"a\":{\"$x\":1},\"b..\":1}", "UnknownOperator $x"),
    (
        "{\"a\":{\"$size\":-1},\"b\":{\"x\":1,\"$x\":1}}",
        "BadOperand $size",
    ),
    ("{\"f\":{\"$lt\":true,\"$gt\":null}}", "BadOperand $gt"),
    ("{\"f\":{\"$size\":-1,\"$foo\":1}}", "UnknownOperator $foo"),
    ("{\"f\":{\"$exists\":1,\"$foo\":1}}", "BadOperand $exists"),
];

/// A fault, and the name or path that it names.
fn told(fault: &QueryFault) -> (&'static str, &str) {
    match fault {
        QueryFault::NotObject => ("NotObject", ""),
        QueryFault::UnknownOperator(name) => ("UnknownOperator", name.as_str()),
        QueryFault::BadPath(path) => ("BadPath", path.as_str()),
        QueryFault::BadOperand(name) => ("BadOperand", name.as_str()),
        QueryFault::EmptyList(name) => ("EmptyList", name.as_str()),
        QueryFault::Mixed(path) => ("Mixed", path.as_str()),
        QueryFault::OutOfMemory => ("OutOfMemory", ""),
    }
}

fn is_read_as(alloc: Global, text: &str, expected: &str) -> Result<bool, Fail> {
    let value = read_value(alloc, text.as_bytes())?;
    match Query::read(alloc, &value) {
        Ok(query) => Ok(expected == "read" && query.copy(alloc)?.source().equals(&value)),
        Err(fault) => Ok(told(&fault) == expected.split_once(' ').unwrap_or((expected, ""))),
    }
}

#[test]
fn queries_are_read(rt: HostRuntime) -> Result<(), Fail> {
    for (text, expected) in &READINGS {
        assert!(rt; is_read_as(rt.alloc(), text, expected)?, "{text}");
    }
    Ok(())
}
