ghost use Rattle.std.specs.Prelude.{◌≡◌, ◌≢◌, true, IfOk, Ok, Err};
ghost use Rattle.doc_query.specs.Syntax.{is_query, query_in};

use crate::fault::QueryFault;
use crate::reading::check_query;
use doc_value::{OutOfMemory, Value};
use std::alloc::Global;
use std::marker::Model;

/// What an assertion asks of a document, kept as the value that it was read from. Contracts see that value.
#[derive(Drop)]
pub struct Query {
    source: Value,
}

impl Model for Query {
    ghost use Rattle.std.specs.Prelude.{◌≡◌, true};
    ghost use Rattle.doc_value.specs.declared.value.Value.{Value as Tree};
    ghost use Rattle.doc_value.specs.contracts.value.Value as value;
    ghost use Rattle.doc_query.specs.Syntax.{is_query};

    ghost Value = { Tree };

    ghost coded = { value.the_row.coded };

    ghost view = { λ q. q.source };

    ghost invariant = { λ q. is_query q.source ≡ true };
}

impl Query {
    /// Reads the value as a query.
    pub fn read(alloc: Global, value: &Value) -> Result<Query, QueryFault>
        ensures exact { result ≢ Err QueryFault.OutOfMemory → result ≡ query_in value.now }
    {
        check_query(alloc, value)?;
        let source = value.copy(alloc)?;
        Ok(Query { source })
    }

    /// The value that it was read from, which is read as this query again.
    pub fn source(&self) -> &Value
        ensures value { result.now ≡ self.now }
        ensures query { is_query self.now ≡ true }
        ensures again { query_in self.now ≡ Ok self.now }
    {
        &self.source
    }

    /// An equal query.
    pub fn copy(&self, alloc: Global) -> Result<Query, OutOfMemory>
        ensures { IfOk result (λ copy. copy ≡ self.now) }
    {
        let source = self.source.copy(alloc)?;
        Ok(Query { source })
    }
}
