ghost use Rattle.std.specs.Prelude.{◌≡◌};
ghost use Rattle.std.specs.List.{list_any, list_all};
ghost use Rattle.doc_value.specs.Names.{is_operator_name};
ghost use Rattle.doc_value.specs.declared.value.Value.{out-Value};
ghost use Rattle.doc_query.specs.Operators.{logic_named, comparison_named, operator_named, is_operand, is_operator_field, are_operators};

use doc_value::{Field, Value};

/// An operator that joins queries.
#[derive(Clone, Copy)]
pub enum Logic {
    And,
    Or,
    Nor,
}

/// An operator that asks something of a field.
#[derive(Clone, Copy)]
pub enum Operator {
    Equal,
    NotEqual,
    In,
    NotIn,
    Exists,
    Size,
    Compare(Comparison),
    Not,
}

#[derive(Clone, Copy)]
pub enum Comparison {
    Greater,
    GreaterOrEqual,
    Less,
    LessOrEqual,
}

impl Logic {
    pub(crate) fn read(name: &[u8]) -> Option<Logic>
        ensures { result ≡ logic_named name.now }
    {
        if name == b"$and".as_slice() {
            return Some(Logic::And);
        }
        if name == b"$or".as_slice() {
            return Some(Logic::Or);
        }
        if name == b"$nor".as_slice() {
            return Some(Logic::Nor);
        }
        None
    }
}

impl Operator {
    pub(crate) fn read(name: &[u8]) -> Option<Operator>
        ensures { result ≡ operator_named name.now }
    {
        if name == b"$eq".as_slice() {
            return Some(Operator::Equal);
        }
        if name == b"$ne".as_slice() {
            return Some(Operator::NotEqual);
        }
        if name == b"$in".as_slice() {
            return Some(Operator::In);
        }
        if name == b"$nin".as_slice() {
            return Some(Operator::NotIn);
        }
        if name == b"$exists".as_slice() {
            return Some(Operator::Exists);
        }
        if name == b"$size".as_slice() {
            return Some(Operator::Size);
        }
        if name == b"$not".as_slice() {
            return Some(Operator::Not);
        }
        read_comparison(name)
    }

    /// Whether the operand is of the operator's kind. That of `$not` is read for itself.
    pub(crate) fn takes(self, operand: &Value) -> bool
        ensures { result ≡ is_operand self (out-Value operand.now) }
    {
        match (self, operand) {
            (Operator::Equal, _) => true,
            (Operator::NotEqual, _) => true,
            (Operator::In, Value::List(_)) => true,
            (Operator::NotIn, Value::List(_)) => true,
            (Operator::Exists, Value::Bool(_)) => true,
            (Operator::Size, Value::Int(number)) => *number >= 0,
            (Operator::Compare(_), Value::Int(_)) => true,
            (Operator::Compare(_), Value::Text(_)) => true,
            _ => false,
        }
    }
}

fn read_comparison(name: &[u8]) -> Option<Operator>
    ensures { result ≡ comparison_named name.now }
{
    if name == b"$gt".as_slice() {
        return Some(Operator::Compare(Comparison::Greater));
    }
    if name == b"$gte".as_slice() {
        return Some(Operator::Compare(Comparison::GreaterOrEqual));
    }
    if name == b"$lt".as_slice() {
        return Some(Operator::Compare(Comparison::Less));
    }
    if name == b"$lte".as_slice() {
        return Some(Operator::Compare(Comparison::LessOrEqual));
    }
    None
}

/// Whether a name is an operator's rather than a path.
pub(crate) fn is_operator(name: &[u8]) -> bool
    ensures { result ≡ is_operator_name name.now }
{
    name.starts_with(b"$")
}

/// Whether the fields are operators alone, and at least one.
pub(crate) fn are_all_operators(fields: &[Field]) -> bool
    ensures { result ≡ are_operators fields.now }
{
    has_operator(fields) && has_operators_alone(fields)
}

pub(crate) fn has_operator(fields: &[Field]) -> bool
    ensures { result ≡ list_any is_operator_field fields.now }
{
    fields
        .iter()
        .any(|field| is_operator(field.name.as_bytes()))
}

fn has_operators_alone(fields: &[Field]) -> bool
    ensures { result ≡ list_all is_operator_field fields.now }
{
    fields
        .iter()
        .all(|field| is_operator(field.name.as_bytes()))
}
