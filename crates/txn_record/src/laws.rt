//! Laws of the sequential side: of operations on documents, and of recorded orders. The crates above
//! cite them by these contracts.
ghost use Rattle.std.specs.Prelude.{◌≡◌, ◌≢◌, ◌≤◌, ◌&&◌, [], ◌∷◌, ◌++◌, List, length, map, true, false, Some, Ok, ℤ};
ghost use Rattle.std.specs.FinMap.{get};
ghost use Rattle.txn_key.specs.declared.key.Key.{Key};
ghost use Rattle.txn_key.specs.Documents.{Docs};
ghost use Rattle.txn_record.specs.declared.entry.Entry.{Entry};
ghost use Rattle.txn_record.specs.declared.op.Op.{Op};
ghost use Rattle.txn_record.specs.Effects.{effect, effect_of, body_after, assertion_holds, change_fits, tests};
ghost use Rattle.txn_record.specs.Orders.{outcome_effect, after, is_right, has_entry, legal};
ghost use Rattle.std.specs.List.{list_all};
ghost use Rattle.txn_record.specs.Chain.{Numbers, keys_of, has_key, numbers_of, number_at, found_by, has_room};
ghost use Rattle.txn_record.specs.Values.{ops_value};
ghost use Rattle.txn_record.specs.Syntax.{ops_in};
ghost use Rattle.txn_record.specs.Transactions.{IsTransaction};
ghost use Rattle.txn_record.specs.Revnos.{first_on, follows, stays_within};

/// An operation changes nothing but the body at its key.
pub fn changes_are_local()
    ensures here { (op : Op) (docs : Docs) →
        get (effect_of op docs) op.key ≡ body_after op.change (get docs op.key) }
    ensures others { (op : Op) (docs : Docs) (key : Key) →
        key ≢ op.key → get (effect_of op docs) key ≡ get docs key }
{}

/// A transaction of one operation runs that operation, where its own assertion holds and its change fits.
pub fn operations_alone()
    ensures effect { (op : Op) (docs : Docs) → effect (op ∷ []) docs ≡ effect_of op docs }
    ensures tests { (op : Op) (docs : Docs) →
        tests (op ∷ []) docs ≡
        (assertion_holds op.assert (get docs op.key)
        && change_fits op.change (get docs op.key)) }
{}

/// A recorded order grows at its end, by a transaction that was not there and was decided rightly.
pub fn orders_grow()
    ensures after { (base : Docs) (entries : List Entry) (entry : Entry) →
        after base (entries ++ entry ∷ []) ≡
        outcome_effect entry.outcome entry.ops (after base entries) }
    ensures legal { (base : Docs) (entries : List Entry) (entry : Entry) →
        legal base entries ≡ true → has_entry entries entry ≡ false →
        is_right entry.outcome (tests entry.ops (after base entries)) ≡ true →
        legal base (entries ++ entry ∷ []) ≡ true }
{}

/// Of a chain, each operation finds what the one before it on the same key left, and the first on a key
/// what stands there; where the numbers have room, no number of it passes the limit.
pub fn chains_follow()
    ensures follows { (ops : List Op) (numbers : Numbers) →
        follows ops (found_by ops numbers) ≡ true }
    ensures begins { (key : Key) (ops : List Op) (numbers : Numbers) → has_key key ops ≡ true →
        first_on key ops (found_by ops numbers) ≡ Some (number_at key numbers) }
    ensures within { (ops : List Op) (first : List ℤ) →
        length ops ≤ 1000 → list_all has_room first ≡ true →
        stays_within ops (found_by ops (numbers_of ops first)) ≡ true }
{}

/// Numbers that are given for the distinct keys in key order stand at these keys.
pub fn numbers_stand()
    ensures { (key : Key) (ops : List Op) (number : Key → ℤ) → has_key key ops ≡ true →
        number_at key (numbers_of ops (map number (keys_of ops))) ≡ number key }
{}

/// What the operations of a transaction print as is read as these operations.
pub fn operations_read_back()
    ensures { (ops : List Op) → IsTransaction ops → ops_in (ops_value ops) ≡ Ok ops }
{}
