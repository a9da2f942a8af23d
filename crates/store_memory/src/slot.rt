ghost use Rattle.std.specs.Prelude.{◌≡◌, IfOk};

use doc_value::OutOfMemory;
use std::alloc::Global;
use std::marker::Model;
use store_trait::{Cell, Name};

/// A cell under its name. It stands behind a box, so that a vector which makes room for one more
/// moves a pointer for each cell behind it.
#[derive(Drop)]
pub(crate) struct Slot {
    entry: Box<(Name, Cell)>,
}

impl Model for Slot {
    ghost use Rattle.std.specs.Coded.{coded×};
    ghost use Rattle.store_trait.specs.contracts.cell.Cell as cell;
    ghost use Rattle.store_trait.specs.contracts.name.Name as name;
    ghost use Rattle.store_trait.specs.declared.cell.Cell.{Cell};
    ghost use Rattle.store_trait.specs.declared.name.Name.{Name};

    ghost Value = { Name × Cell };

    ghost coded = { coded× name.the_row.coded cell.the_row.coded };

    ghost view = { λ s. s.entry.value };
}

impl Slot {
    pub(crate) fn new(alloc: Global, name: Name, cell: Cell) -> Result<Slot, OutOfMemory>
        ensures { IfOk result (λ slot. slot ≡ (name, cell)) }
    {
        let entry = Box::new(alloc, (name, cell))?;
        Ok(Slot { entry })
    }

    pub(crate) fn name(&self) -> &Name
        ensures { result.now ≡ self.now.0 }
    {
        &self.entry.0
    }

    pub(crate) fn cell(&self) -> &Cell
        ensures { result.now ≡ self.now.1 }
    {
        &self.entry.1
    }

    /// Puts another cell under the name.
    pub(crate) fn put(&mut self, cell: Cell)
        ensures { self.new ≡ (self.old.0, cell) }
    {
        self.entry.1 = cell;
    }
}
