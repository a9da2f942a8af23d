//! What stands at the beginning: documents that are placed, and records that are submitted.
ghost use Rattle.std.specs.Prelude.{◌≡◌, true, None, is_some};
ghost use Rattle.std.specs.FinMap.{empty, get};
ghost use Rattle.doc_value.specs.declared.value.Value.{Value};
ghost use Rattle.txn_key.specs.declared.id.TxnId.{TxnId};
ghost use Rattle.txn_key.specs.declared.key.Key.{Key};
ghost use Rattle.txn_record.specs.declared.record.Record.{Record};
ghost use Rattle.txn_record.specs.declared.state.State.TheVariants as state;
ghost use Rattle.store_trait.specs.Contents.{Content};
ghost use Rattle.store_trait.specs.Edits.{hit, edited};
ghost use Rattle.store_laws.specs.Meaning.{meaning};
ghost use Rattle.store_laws.specs.Soundness.{IsSound, is_numbered_record};
ghost use Rattle.store_laws.specs.Steps.{IsQuiet};
ghost use Rattle.store_laws.specs.View.{look, stash_at};
ghost use Rattle.store_trait.specs.declared.cell.Cell.TheVariants as cell;
ghost use Rattle.store_trait.specs.declared.edit.Edit.TheVariants as edit;
ghost use Rattle.store_trait.specs.declared.name.Name.TheVariants as name;
ghost use Rattle.store_laws.specs.Alone.{IsAtRest};
ghost use Rattle.store_laws.specs.Placed.{new_doc, IsPlaced};

/// A store that holds nothing is sound, means no document, and nobody waits in it.
pub fn beginning_with_nothing()
    ensures sound { IsSound empty }
    ensures means { meaning empty ≡ empty }
    ensures rests { IsAtRest (look empty) }
    ensures missing { (key : Key) → stash_at empty key ≡ None }
{}

/// Placing a new document under a key that has neither cell makes one document more.
pub fn placing_a_document()
    ensures { (c : Content) (key : Key) (body : Value) →
        IsSound c → stash_at c key ≡ None →
        is_some (hit (edit.Place (cell.Doc (new_doc body))) (name.Doc key) (get c (name.Doc key))) ≡
        true →
        IsPlaced c (edited c (name.Doc key) (edit.Place (cell.Doc (new_doc body)))) key body }
{}

/// Putting a preparing record under its own id decides nothing, and the meaning stays.
pub fn inserting_a_record()
    ensures { (c : Content) (id : TxnId) (rec : Record) →
        IsSound c → rec.state ≡ state.Preparing → is_numbered_record rec ≡ true →
        IsQuiet c (edited c (name.Record id) (edit.InsertRecord rec)) }
{}
