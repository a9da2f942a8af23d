ghost use Rattle.std.specs.Prelude.{◌≡◌, ◌<◌, ◌≤◌, IsTrue, IfOk, IfErr, OnOk, OnErr, find, length, not, option_map, slice_get, Some};
ghost use Rattle.std.specs.Option.{option_copied};
ghost use Rattle.std.specs.Ordering.{eq_by_cmp};
ghost use Rattle.std.specs.FinMap.Entries.{find as value_of, put, is_sorted, where_key};
ghost use Rattle.store_trait.specs.Names.{name_cmp};
ghost use Rattle.store_trait.specs.Contents.{is_past, named};
ghost use Rattle.store_memory.specs.Positions.{GoesAt, StandsAt};
ghost use Rattle.store_memory.specs.Told.{is_held};

use crate::slot::Slot;
use doc_value::OutOfMemory;
use sqlite_items::at;
use std::alloc::Global;
use store_trait::{Cell, Name, Named};

/// Where a name stands among cells in the order of names, or else where it would go.
fn seek(cells: &[Slot], name: &Name) -> Result<usize, usize>
    requires { IsTrue (is_sorted name_cmp cells.now) }
    ensures stands { IfOk result (λ position. StandsAt name_cmp name.now position cells.now) }
    ensures goes { IfErr result (λ position. GoesAt name_cmp name.now position cells.now) }
    ensures within { IfOk result (λ position. position < length cells.now) }
    ensures at_most { IfErr result (λ position. position ≤ length cells.now) }
{
    cells.binary_search_by(|slot| slot.name().compare(name))
}

/// The cell under a name.
pub(crate) fn look<'a>(cells: &'a [Slot], name: &Name) -> Option<&'a Cell>
    requires { IsTrue (is_sorted name_cmp cells.now) }
    ensures { option_copied result ≡ value_of name_cmp name.now cells.now }
{
    match seek(cells, name) {
        Ok(position) => Some(cells[position].cell()),
        Err(_) => None,
    }
}

/// Whether that cell stands under a name.
pub(crate) fn holds(cells: &[Slot], name: &Name, cell: &Cell) -> bool
    requires { IsTrue (is_sorted name_cmp cells.now) }
    ensures { result ≡ is_held cell.now (value_of name_cmp name.now cells.now) }
{
    match look(cells, name) {
        Some(held) => held.equals(cell),
        None => false,
    }
}

/// The first cell past a name, or the first of all.
pub(crate) fn first_past<'a>(cells: &'a [Slot], after: Option<&Name>) -> Option<&'a Slot>
    requires { IsTrue (is_sorted name_cmp cells.now) }
    ensures { option_copied result ≡
        find (λ entry. is_past (option_copied after.entry) entry.0) cells.now }
{
    match after {
        None => cells.first(),
        Some(name) => at(cells, position_past(cells, name)),
    }
}

/// The position of the first cell past a name, or the end.
fn position_past(cells: &[Slot], name: &Name) -> usize
    requires { IsTrue (is_sorted name_cmp cells.now) }
    ensures { slice_get cells.now result ≡
        find (λ entry. is_past (Some name.now) entry.0) cells.now }
{
    match seek(cells, name) {
        Ok(position) => position + 1,
        Err(position) => position,
    }
}

/// Puts a cell under a name.
pub(crate) fn put(
    alloc: Global,
    cells: &mut Vec<Slot>,
    name: &Name,
    cell: Cell,
) -> Result<(), OutOfMemory>
    requires { IsTrue (is_sorted name_cmp cells.old.items) }
    ensures ok { OnOk result (cells.new.items ≡ put name_cmp name.now cell cells.old.items) }
    ensures err { OnErr result (cells.new.items ≡ cells.old.items) }
{
    match seek(cells, name) {
        Ok(position) => cells[position].put(cell),
        Err(position) => {
            let slot = Slot::new(alloc, name.copy(alloc)?, cell)?;
            cells.insert(position, slot)?;
        }
    }
    Ok(())
}

/// Takes out the cell under a name, if there is one.
pub(crate) fn take_out(cells: &mut Vec<Slot>, name: &Name)
    requires { IsTrue (is_sorted name_cmp cells.old.items) }
    ensures { cells.new.items ≡
        where_key name_cmp (λ other. not (eq_by_cmp name_cmp name.now other)) cells.old.items }
{
    if let Ok(position) = seek(cells, name) {
        let _ = cells.remove(position);
    }
}

/// A copy of the cell under a name.
pub(crate) fn copy_under(
    alloc: Global,
    cells: &[Slot],
    name: &Name,
) -> Result<Option<Cell>, OutOfMemory>
    requires { IsTrue (is_sorted name_cmp cells.now) }
    ensures { IfOk result (λ found. found ≡ value_of name_cmp name.now cells.now) }
{
    match look(cells, name) {
        Some(cell) => Ok(Some(cell.copy(alloc)?)),
        None => Ok(None),
    }
}

/// A copy of the first cell past a name, or of the first of all, with its name.
pub(crate) fn copy_past(
    alloc: Global,
    cells: &[Slot],
    after: Option<&Name>,
) -> Result<Option<Named>, OutOfMemory>
    requires { IsTrue (is_sorted name_cmp cells.now) }
    ensures { IfOk result (λ found. found ≡ option_map named
        (find (λ entry. is_past (option_copied after.entry) entry.0) cells.now)) }
{
    match first_past(cells, after) {
        Some(slot) => {
            let name = slot.name().copy(alloc)?;
            let cell = slot.cell().copy(alloc)?;
            Ok(Some(Named { name, cell }))
        }
        None => Ok(None),
    }
}
