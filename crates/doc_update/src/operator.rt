ghost use Rattle.std.specs.Prelude.{◌≡◌, codes};
ghost use Rattle.doc_value.specs.Names.{is_operator_name};
ghost use Rattle.doc_value.specs.declared.value.Value.{out-Value};
ghost use Rattle.doc_update.specs.Operators.{operator_named, is_of_kind, is_operand};

use doc_value::Value;

/// What is done at a path.
#[derive(Clone, Copy, Debug)]
pub enum Operator {
    Set,
    Unset,
    Inc,
    Push,
    AddToSet,
    Pull,
    Pop,
}

impl Operator {
    /// The operator of that name.
    pub fn named(name: &[u8]) -> Option<Operator>
        ensures { result ≡ operator_named name.now }
    {
        if name == b"$set".as_slice() {
            Some(Operator::Set)
        } else if name == b"$unset".as_slice() {
            Some(Operator::Unset)
        } else if name == b"$inc".as_slice() {
            Some(Operator::Inc)
        } else if name == b"$push".as_slice() {
            Some(Operator::Push)
        } else if name == b"$addToSet".as_slice() {
            Some(Operator::AddToSet)
        } else if name == b"$pull".as_slice() {
            Some(Operator::Pull)
        } else if name == b"$pop".as_slice() {
            Some(Operator::Pop)
        } else {
            None
        }
    }

    /// Whether the value is an operand of the operator.
    pub fn takes(self, operand: &Value) -> bool
        ensures { result ≡ is_operand self operand.now }
    {
        self.takes_kind(operand) && operand.refused_name().is_none()
    }

    fn takes_kind(self, operand: &Value) -> bool
        ensures { result ≡ is_of_kind self (out-Value operand.now) }
    {
        match self {
            Operator::Set => true,
            Operator::Unset => true,
            Operator::Inc => matches!(operand, Value::Int(_)),
            Operator::Push => true,
            Operator::AddToSet => true,
            Operator::Pull => !matches!(operand, Value::Object(_)),
            Operator::Pop => match operand {
                Value::Int(number) => *number == 1 || *number == -1,
                _ => false,
            },
        }
    }
}
