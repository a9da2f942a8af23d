//! Laws of the definitions, each the contract of a call that does nothing.
ghost use Rattle.std.specs.Prelude.{◌≡◌, Some};
ghost use Rattle.doc_value.specs.Readable.{IsReadable};
ghost use Rattle.doc_value.specs.declared.value.Value.{Value};
ghost use Rattle.store_trait.specs.declared.cell.Named.{Named};
ghost use Rattle.cell_text.specs.Storable.{IsStorable};
ghost use Rattle.cell_text.specs.Syntax.{cell_in, cell_of_line};
ghost use Rattle.cell_text.specs.Values.{cell_text, cell_value};

/// What a cell prints as is read as that cell, under its name; and so is its line, where its value is one that
/// reading can give. Each cell that any value is read as is such a cell, so what it prints as is read as it again.
pub fn cells_read_back()
    ensures value { (named : Named) → IsStorable named → cell_in (cell_value named) ≡ Some named }
    ensures line { (named : Named) → IsStorable named → IsReadable (cell_value named) →
        cell_of_line (cell_text named) ≡ Some named }
    ensures read { (value : Value) (named : Named) → cell_in value ≡ Some named → IsStorable named }
    ensures again { (value : Value) (named : Named) → cell_in value ≡ Some named →
        cell_in (cell_value named) ≡ Some named }
{}
