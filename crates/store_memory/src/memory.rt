ghost use Rattle.std.specs.Prelude.{◌≡◌, ◌<◌, ◌≤◌, [], ◌∷◌, ◌++◌, true, false, not, Some, None, vec_len, vec_capacity, IsTrue, IfOk, IfSome, OnOk, OnErr, is_some, option_map};
ghost use Rattle.std.specs.Option.{option_copied};
ghost use Rattle.std.specs.FinMap.{empty, get};
ghost use Rattle.std.specs.FinMap.Entries.{put, is_sorted, where_key};
ghost use Rattle.std.specs.Ordering.{eq_by_cmp};
ghost use Rattle.store_trait.specs.Names.{name_cmp, may_stand};
ghost use Rattle.store_trait.specs.Contents.{is_past, first_past, named};
ghost use Rattle.store_trait.specs.Edits.{may_leave};
ghost use Rattle.store_trait.specs.Calls.{counted_call, IsOfKind};
ghost use Rattle.store_trait.specs.Changes.{as_hit};
ghost use Rattle.store_memory.specs.Told.{opened, content_of, IsWithinCounts, fails_next, failed, hit_of, is_held, changes_at, changes_of, noted};
ghost use Rattle.store_memory.specs.CallsMade.{IsAnswer, IsCall};

use crate::log::Logged;
use crate::positions;
use crate::slot::Slot;
use doc_value::OutOfMemory;
use std::alloc::Global;
use std::marker::Model;
use store_trait::{Cell, Changed, Edit, Edited, Name, Named, StoreError, change};

/// How many calls are counted at most.
const CALL_LIMIT: u64 = 1 << 63;

/// A store in memory. It keeps the cells in the order of their names, and the log of the edits that
/// changed them, from which it tells the content after each call. Chosen calls fail.
#[derive(Drop)]
pub struct MemoryStore {
    cells: Vec<Slot>,
    log: Vec<Logged>,
    fails: Vec<u64>,
    calls: u64,
    faults: u64,
}

impl Model for MemoryStore {
    ghost use Rattle.store_memory.specs.Told.{Told, told_code};
    ghost use Rattle.store_memory.specs.CallsMade.{IsKept};
    ghost use Rattle.store_memory.specs.contracts.log.Logged as logged;

    ghost Value = { Told };

    ghost coded = { told_code logged.the_row.coded };

    ghost view = { λ s. record {
      log = s.log.items;
      fails = s.fails.items;
      calls = s.calls;
      faults = s.faults;
    } };

    ghost invariant = { λ s. IsKept s.cells.items (record {
      log = s.log.items;
      fails = s.fails.items;
      calls = s.calls;
      faults = s.faults;
    }) };
}

impl MemoryStore {
    /// An empty store of which the calls with these numbers, from 1, fail.
    pub fn new(alloc: Global, fails: Vec<u64>) -> Result<MemoryStore, OutOfMemory>
        ensures told { IfOk result (λ made. made ≡ opened fails.items) }
        ensures empty { IfOk result (λ made. content_of made ≡ empty) }
    {
        Ok(MemoryStore {
            cells: Vec::new(alloc),
            log: Vec::new(alloc),
            fails,
            calls: 0,
            faults: 0,
        })
    }

    /// How many calls were made.
    pub(crate) fn count(&self) -> u64
        ensures { result ≡ self.now.calls }
    {
        self.calls
    }

    /// Whether the next call fails.
    fn fails_next(&self) -> bool
        ensures test { result ≡ fails_next self.now }
    {
        self.calls >= CALL_LIMIT || self.fails.contains(&(self.calls + 1))
    }

    /// Counts a call that fails, and its fault.
    fn fail(&mut self) -> StoreError
        ensures told { self.new ≡ failed self.old }
        ensures error { result ≡ StoreError.Failed }
        ensures counted { IsWithinCounts self.old }
    {
        self.calls = counted_failure(self.calls);
        self.faults = self.faults.saturating_add(1);
        StoreError::Failed
    }

    /// The cell under a name.
    pub(crate) fn find(&mut self, alloc: Global, name: &Name) -> Result<Option<Cell>, StoreError>
        ensures found { IfOk result (λ found. found ≡ get (content_of self.old) name.now) }
        ensures kind { IfOk result (IsOfKind name.now) }
        ensures call { IsCall self.old self.new [] result }
    {
        if self.fails_next() {
            return Err(self.fail());
        }
        self.calls += 1;
        let found = positions::copy_under(alloc, &self.cells, name)?;
        Ok(found)
    }

    /// The first cell past a name, or the first of all.
    pub(crate) fn find_past(
        &mut self,
        alloc: Global,
        after: Option<&Name>,
    ) -> Result<Option<Named>, StoreError>
        ensures found { IfOk result (λ found. found ≡
            option_map named (first_past (option_copied after.entry) (content_of self.old))) }
        ensures past { IfOk result (λ found. IfSome found
            (λ it. IsTrue (is_past (option_copied after.entry) it.name))) }
        ensures kind { IfOk result (λ found. IfSome found
            (λ it. IsTrue (may_stand it.name it.cell))) }
        ensures call { IsCall self.old self.new [] result }
    {
        if self.fails_next() {
            return Err(self.fail());
        }
        self.calls += 1;
        let found = positions::copy_past(alloc, &self.cells, after)?;
        Ok(found)
    }

    /// Makes an edit of the cell under a name, where its guard holds.
    pub(crate) fn make(
        &mut self,
        alloc: Global,
        name: &Name,
        edit: &Edit,
    ) -> Result<Edited, StoreError>
        ensures done { IfOk result
            (IsAnswer (is_some (hit_of self.old name.now edit.now)) name.now self.new) }
        ensures call { IsCall self.old self.new (changes_of self.old name.now edit.now) result }
    {
        if self.fails_next() {
            return Err(self.fail());
        }
        self.calls += 1;
        Ok(self.apply(alloc, name, edit)?)
    }

    /// Makes an edit in a call that is counted.
    fn apply(&mut self, alloc: Global, name: &Name, edit: &Edit) -> Result<Edited, OutOfMemory>
        ensures done { IfOk result
            (IsAnswer (is_some (hit_of self.old name.now edit.now)) name.now self.new) }
        ensures told { OnOk result (self.new ≡ noted self.old
            (changes_at self.old.calls self.old name.now edit.now)) }
        ensures err { OnErr result (self.new ≡ self.old) }
    {
        match self.changed(alloc, name, edit)? {
            Changed::Missed => self.miss(alloc, name),
            Changed::Put(after) => self.put(alloc, name, edit, after),
            Changed::Gone => self.take_out(alloc, name, edit),
        }
    }

    /// What an edit makes of the cell under a name.
    fn changed(&self, alloc: Global, name: &Name, edit: &Edit) -> Result<Changed, OutOfMemory>
        ensures hit { IfOk result (λ changed. as_hit changed ≡ hit_of self.now name.now edit.now) }
        ensures kind { IfOk result (λ changed. IsTrue (may_leave name.now (as_hit changed))) }
    {
        change(alloc, name, edit, positions::look(&self.cells, name))
    }

    /// What an edit that missed comes to.
    fn miss(&self, alloc: Global, name: &Name) -> Result<Edited, OutOfMemory>
        ensures { IfOk result (IsAnswer false name.now self.now) }
    {
        let cell = positions::copy_under(alloc, &self.cells, name)?;
        Ok(Edited { hit: false, cell })
    }

    /// Puts the cell that an edit makes under a name. Where it stands there, nothing is written or
    /// logged: the log has no more than the changes.
    fn put(
        &mut self,
        alloc: Global,
        name: &Name,
        edit: &Edit,
        after: Cell,
    ) -> Result<Edited, OutOfMemory>
        requires hits { hit_of self.old name.now edit.now ≡ Some (Some after) }
        requires kind { IsTrue (may_stand name.now after) }
        ensures done { IfOk result (IsAnswer true name.now self.new) }
        ensures told { OnOk result (self.new ≡ noted self.old
            (changes_at self.old.calls self.old name.now edit.now)) }
        ensures err { OnErr result (self.new ≡ self.old) }
    {
        if self.holds(name, &after) {
            Ok(Edited {
                hit: true,
                cell: Some(after),
            })
        } else {
            self.put_other(alloc, name, edit, after)
        }
    }

    /// Whether that cell stands under a name.
    fn holds(&self, name: &Name, cell: &Cell) -> bool
        ensures { result ≡ is_held cell.now (get (content_of self.now) name.now) }
    {
        positions::holds(&self.cells, name, cell)
    }

    /// Puts the cell that an edit makes under a name, in the place of another one or of none.
    fn put_other(
        &mut self,
        alloc: Global,
        name: &Name,
        edit: &Edit,
        after: Cell,
    ) -> Result<Edited, OutOfMemory>
        requires hits { hit_of self.old name.now edit.now ≡ Some (Some after) }
        requires kind { IsTrue (may_stand name.now after) }
        ensures done { IfOk result (IsAnswer true name.now self.new) }
        ensures told { OnOk result (self.new ≡ noted self.old
            (record { at = self.old.calls; name = name.now; edit = edit.now } ∷ [])) }
        ensures err { OnErr result (self.new ≡ self.old) }
    {
        let cell = after.copy(alloc)?;
        write(
            alloc,
            &mut self.cells,
            &mut self.log,
            self.calls,
            name,
            edit,
            after,
        )?;
        Ok(Edited {
            hit: true,
            cell: Some(cell),
        })
    }

    /// Takes out the cell under a name, as an edit does.
    fn take_out(&mut self, alloc: Global, name: &Name, edit: &Edit) -> Result<Edited, OutOfMemory>
        requires hits { hit_of self.old name.now edit.now ≡ Some None }
        ensures done { IfOk result (IsAnswer true name.now self.new) }
        ensures told { OnOk result (self.new ≡ noted self.old
            (record { at = self.old.calls; name = name.now; edit = edit.now } ∷ [])) }
        ensures err { OnErr result (self.new ≡ self.old) }
    {
        erase(
            alloc,
            &mut self.cells,
            &mut self.log,
            self.calls,
            name,
            edit,
        )?;
        Ok(Edited {
            hit: true,
            cell: None,
        })
    }
}

/// How many calls are counted once one has failed.
fn counted_failure(calls: u64) -> u64
    ensures count { result ≡ counted_call calls }
    ensures later { calls ≤ result }
{
    if calls < CALL_LIMIT { calls + 1 } else { calls }
}

/// Puts the cell that an edit makes under a name, and the edit into the log. Memory is taken first.
fn write(
    alloc: Global,
    cells: &mut Vec<Slot>,
    log: &mut Vec<Logged>,
    call: u64,
    name: &Name,
    edit: &Edit,
    after: Cell,
) -> Result<(), OutOfMemory>
    requires { IsTrue (is_sorted name_cmp cells.old.items) }
    ensures cells { OnOk result (cells.new.items ≡ put name_cmp name.now after cells.old.items) }
    ensures log { OnOk result (log.new.items ≡ log.old.items
        ++ record { at = call; name = name.now; edit = edit.now } ∷ []) }
    ensures cells_err { OnErr result (cells.new.items ≡ cells.old.items) }
    ensures log_err { OnErr result (log.new.items ≡ log.old.items) }
{
    let count = log.len();
    append(alloc, log, call, name, edit)?;
    match positions::put(alloc, cells, name, after) {
        Ok(()) => Ok(()),
        Err(error) => {
            log.truncate(count);
            Err(error)
        }
    }
}

/// Takes out the cell under a name, and notes the edit that does so in the log. Memory is taken
/// first.
fn erase(
    alloc: Global,
    cells: &mut Vec<Slot>,
    log: &mut Vec<Logged>,
    call: u64,
    name: &Name,
    edit: &Edit,
) -> Result<(), OutOfMemory>
    requires { IsTrue (is_sorted name_cmp cells.old.items) }
    ensures cells { OnOk result (cells.new.items
        ≡ where_key name_cmp (λ other. not (eq_by_cmp name_cmp name.now other)) cells.old.items) }
    ensures log { OnOk result (log.new.items ≡ log.old.items
        ++ record { at = call; name = name.now; edit = edit.now } ∷ []) }
    ensures cells_err { OnErr result (cells.new.items ≡ cells.old.items) }
    ensures log_err { OnErr result (log.new.items ≡ log.old.items) }
{
    let change = logged_change(alloc, call, name, edit)?;
    log.reserve(1)?;
    note(log, change);
    positions::take_out(cells, name);
    Ok(())
}

/// Adds an edit of a cell in a call to the log.
fn append(
    alloc: Global,
    log: &mut Vec<Logged>,
    call: u64,
    name: &Name,
    edit: &Edit,
) -> Result<(), OutOfMemory>
    ensures log { OnOk result (log.new.items ≡ log.old.items
        ++ record { at = call; name = name.now; edit = edit.now } ∷ []) }
    ensures err { OnErr result (log.new.items ≡ log.old.items) }
{
    let change = logged_change(alloc, call, name, edit)?;
    log.push(change)?;
    Ok(())
}

/// An edit of a cell in a call.
fn logged_change(alloc: Global, call: u64, name: &Name, edit: &Edit) -> Result<Logged, OutOfMemory>
    ensures { IfOk result (λ change. change ≡
        record { at = call; name = name.now; edit = edit.now }) }
{
    let name = name.copy(alloc)?;
    let edit = edit.copy(alloc)?;
    Ok(Logged {
        at: call,
        name,
        edit,
    })
}

/// Adds a change to a log that has room for it.
fn note(log: &mut Vec<Logged>, change: Logged)
    requires { vec_len log.old < vec_capacity log.old }
    ensures { log.new.items ≡ log.old.items ++ change ∷ [] }
{
    match log.push(change) {
        Ok(()) => {}
        Err(_) => unreachable!(),
    }
}
