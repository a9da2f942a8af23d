ghost use Rattle.std.specs.Prelude.{◌≡◌, ◌≢◌, IfOk, true, Err};
ghost use Rattle.doc_update.specs.Syntax.{is_update, update_in};

use crate::fault::UpdateFault;
use crate::read::fault_among;
use doc_value::{OutOfMemory, Value};
use std::alloc::Global;
use std::marker::Model;

/// A change of a document's body, kept as the value that it was read from. Contracts see that value.
#[derive(Drop)]
pub struct Update {
    source: Value,
}

impl Model for Update {
    ghost use Rattle.std.specs.Prelude.{◌≡◌, true};
    ghost use Rattle.doc_value.specs.declared.value.Value.{Value as Tree};
    ghost use Rattle.doc_value.specs.contracts.value.Value as value;
    ghost use Rattle.doc_update.specs.Syntax.{is_update};

    ghost Value = { Tree };

    ghost coded = { value.the_row.coded };

    ghost view = { λ u. u.source };

    ghost invariant = { λ u. is_update u.source ≡ true };
}

impl Update {
    /// The update that the value is, or the first fault in the order of the formats: of its shape, then of
    /// each operator, path and operand in turn, then of the paths together.
    pub fn read(alloc: Global, value: &Value) -> Result<Update, UpdateFault>
        ensures exact { result ≢ Err UpdateFault.OutOfMemory → result ≡ update_in value.now }
    {
        let Value::Object(operators) = value else {
            return Err(UpdateFault::NotOperators);
        };
        if let Some(fault) = fault_among(alloc, operators.as_slice())? {
            return Err(fault);
        }
        let source = value.copy(alloc)?;
        Ok(Update { source })
    }

    /// The value that it was read from.
    pub fn source(&self) -> &Value
        ensures value { result.now ≡ self.now }
        ensures update { is_update self.now ≡ true }
    {
        &self.source
    }

    /// An equal update.
    pub fn copy(&self, alloc: Global) -> Result<Update, OutOfMemory>
        ensures { IfOk result (λ copy. copy ≡ self.now) }
    {
        let source = self.source.copy(alloc)?;
        Ok(Update { source })
    }
}
