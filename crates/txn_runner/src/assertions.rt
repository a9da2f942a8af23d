//! The tests of an operation, on its document as it is.

ghost use Rattle.std.specs.Prelude.{◌≡◌, ◌&&◌, Some};
ghost use Rattle.txn_record.specs.Effects.{assertion_holds, change_fits};

use doc_apply::fits;
use doc_query::matches;
use doc_value::Value;
use txn_record::{Assert, Change, Op};

/// Whether the operation's assertion holds of the document, and its change fits there.
pub fn tests_hold(op: &Op, body: &Value) -> bool
    ensures { result ≡ (assertion_holds op.now.assert (Some body.now) && change_fits op.now.change (Some body.now)) }
{
    assertion_holds(&op.assert, body) && change_fits(&op.change, body)
}

fn assertion_holds(assert: &Assert, body: &Value) -> bool
    ensures { result ≡ assertion_holds assert.now (Some body.now) }
{
    match assert {
        Assert::Nothing | Assert::Exists => true,
        Assert::Missing => false,
        Assert::Query(query) => matches(query, body),
    }
}

fn change_fits(change: &Change, body: &Value) -> bool
    ensures { result ≡ change_fits change.now (Some body.now) }
{
    match change {
        Change::Update(update) => fits(update, body),
        Change::Nothing | Change::Insert(_) | Change::Remove => true,
    }
}
