//! Laws of the definitions, each the contract of a call that does nothing.
ghost use Rattle.std.specs.Prelude.{◌≡◌, List, Option};
ghost use Rattle.std.specs.List.{list_any, list_all};
ghost use Rattle.doc_value.specs.declared.value.Named.{Named};
ghost use Rattle.doc_value.specs.declared.value.Value.{Value, List as Items_of, Object};
ghost use Rattle.doc_query.specs.Conditions.{passes_all, passes_named};
ghost use Rattle.doc_query.specs.Meaning.{holds, holds_as, every, some, name_holds};
ghost use Rattle.doc_query.specs.Operators.{operator_named};

/// The truth of a query by that of what stands inside it.
pub fn truth_by_cases()
    ensures names { (fields : List (Named Value)) (body : Value) → holds (Object fields) body
        ≡ list_all (λ field. name_holds field.name field.value (holds_as field.value) body) fields }
    ensures every { (queries : List Value) (body : Value) → holds_as (Items_of queries) every body
        ≡ list_all (λ query. holds query body) queries }
    ensures some { (queries : List Value) (body : Value) → holds_as (Items_of queries) some body
        ≡ list_any (λ query. holds query body) queries }
    ensures operators { (operators : List (Named Value)) (field : Option Value)
        → passes_all (Object operators) field ≡ list_all (λ operator. passes_named
        (operator_named operator.name) operator.value (passes_all operator.value) field) operators }
{}
