//! Laws of the definitions, each the contract of a call that does nothing.
ghost use Rattle.std.specs.Prelude.{◌≡◌, ◌≤◌, IfSome, List, Option, true};
ghost use Rattle.std.specs.List.Sorted.{IsPermutation};
ghost use Rattle.doc_value.specs.Depth.{nesting};
ghost use Rattle.doc_value.specs.declared.value.Value.{Value};
ghost use Rattle.doc_update.specs.Changes.{Change, changes_of};
ghost use Rattle.doc_update.specs.Conflicts.{are_apart};
ghost use Rattle.doc_update.specs.Syntax.{is_object, is_update};
ghost use Rattle.doc_update.specs.Updates.{after_changes, updated};

/// Changes that don't conflict have the same effect in every order, and those of an update don't.
pub fn order_makes_no_difference()
    ensures apart { (update : Value) →
        is_update update ≡ true → are_apart (changes_of update) ≡ true }
    ensures alike { (changes others : List Change) (found : Option Value) →
        IsPermutation changes others → are_apart changes ≡ true
        → after_changes others found ≡ after_changes changes found }
{}

/// What an update makes of an object is an object, of at most 90 levels.
pub fn updates_keep_bodies()
    ensures object { (update body : Value) →
        is_object body ≡ true → IfSome (updated update body) (λ made. is_object made ≡ true) }
    ensures nests { (update body : Value) →
        is_object body ≡ true → IfSome (updated update body) (λ made. nesting made ≤ 90) }
{}
