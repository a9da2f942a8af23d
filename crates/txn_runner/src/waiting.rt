ghost use Rattle.std.specs.Prelude.{◌≡◌, IfOk};

use doc_value::{OutOfMemory, Value};
use std::alloc::Global;
use txn_key::TxnId;
use txn_record::{Ops, copy_info};

/// A transaction of the batch that the next `go` runs.
#[derive(Drop)]
pub struct Waiting {
    pub id: TxnId,
    /// What the submitter notes with it; its record keeps it.
    pub info: Option<Value>,
    pub ops: Ops,
}

impl Waiting {
    /// An equal transaction.
    pub fn copy(&self, alloc: Global) -> Result<Waiting, OutOfMemory>
        ensures { IfOk result (λ copy. copy ≡ self.now) }
    {
        let info = copy_info(alloc, &self.info)?;
        let ops = self.ops.copy(alloc)?;
        Ok(Waiting {
            id: self.id,
            info,
            ops,
        })
    }
}
