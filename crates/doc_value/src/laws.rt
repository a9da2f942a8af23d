//! Laws of the definitions, each the contract of a call that does nothing.
ghost use Rattle.std.specs.Prelude.{◌≡◌, ◌↔◌, IsTrue, Ok};
ghost use Rattle.doc_value.specs.Texts.{compact};
ghost use Rattle.doc_value.specs.Readable.{IsReadable};
ghost use Rattle.doc_value.specs.Syntax.{value_in};
ghost use Rattle.doc_value.specs.Same.{same};
ghost use Rattle.doc_value.specs.declared.value.Value.{Value};

/// The printed text of a value is read as that value, where it is one that reading can give.
pub fn reads_back()
    ensures { (value : Value) → IsReadable value → value_in (compact value) ≡ Ok value }
{}

/// The test of two values is equality.
pub fn same_is_equality()
    ensures { (value other : Value) → IsTrue (same value other) ↔ (value ≡ other) }
{}
