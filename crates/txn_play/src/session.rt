//! A script as it is played: what each statement does to the store, and what it answers.

ghost use Rattle.std.specs.Prelude.{◌≡◌, [], true, false, None, IsTrue, IfOk, OnOk, OnErr, IfErr};
ghost use Rattle.std.specs.FinMap.{insert};
ghost use Rattle.store_trait.specs.Stores.{CallsGoOn};
ghost use Rattle.txn_play.specs.Sessions.{HasAttended};
ghost use Rattle.txn_play.specs.Progress.{against_placing, is_default, lets_run, objection_to, runs_batch, unless_alone, Does, RunsBatch};
ghost use Rattle.txn_play.specs.Refusals.{IsUnfound};
ghost use Rattle.txn_play.specs.Sessions.{IsAgainst, IsCaused, IsFoundFor, IsKept, IsRefused, Stands, at};
ghost use Rattle.txn_script.specs.declared.statement.Statement.TheVariants as statement;

use crate::admission::{against_record, place, placed_doc};
use crate::answer::Answer;
use crate::batch::Batch;
use crate::objection::Objection;
use crate::reading::{cells, documents, finding};
use crate::refusal::Refusal;
use crate::run::{Run, decided_in};
use crate::settling::run_batch;
use doc_value::Value;
use std::alloc::Global;
use store_trait::{Cell, Name, Store};
use txn_key::{Key, TxnId};
use txn_record::Ops;
use txn_runner::Waiting;
use txn_script::{GoPlan, Statement};

/// How far a script has come.
pub struct Session<S> {
    pub store: S,
    pub runs: Vec<Run>,
    pub batch: Batch,
    /// A statement stood that places nothing.
    pub begun: bool,
    /// Documents alone were placed, over a store that had no cell as the call began: batches are run over such a
    /// store alone.
    pub documents_alone: bool,
}

/// Whether a statement first lets a batch run that waits. What isn't built lets none run.
pub fn lets_run(statement: &Statement) -> bool
    ensures { result ≡ lets_run statement.now }
{
    match statement {
        Statement::Doc { .. } | Statement::Place { .. } => true,
        Statement::Show | Statement::Export | Statement::Order | Statement::Audit => true,
        Statement::Submit { .. } | Statement::Go(_) => false,
        Statement::Resume(_) | Statement::Prune | Statement::Purge => false,
    }
}

/// Whether a batch is run as where nothing is said: by one runner, to its end.
fn is_default(plan: &GoPlan) -> bool
    ensures { result ≡ is_default plan.now }
{
    plan.runners == 1 && plan.seed == 0 && plan.stops.as_slice().is_empty() && plan.finish
}

impl<S: Store> Session<S> {
    /// Does a statement, and answers what it comes to. A batch that the statement lets run has run before.
    pub fn perform(&mut self, alloc: Global, statement: Statement) -> Result<Answer, Refusal>
        requires stands { Stands S.Store self.old }
        requires cleared { lets_run statement ≡ true → self.old.batch ≡ [] }
        ensures done { IsTrue S.tells → IfOk result
            (Does statement (at S.Store self.old) (at S.Store self.new)) }
        ensures against { IsTrue S.tells → IfErr result
            (IsAgainst (objection_to (at S.Store self.old) statement)) }
        ensures found { IfErr result (IsFoundFor statement) }
        ensures refused { IfErr result
            (IsRefused S.Store (runs_batch statement) self.old self.new) }
        ensures kept { IsKept S.Store self.old self.new result }
    {
        match statement {
            Statement::Doc { key, body } => self.place_document(alloc, key, body),
            Statement::Place { name, cell } => self.place_cell(alloc, name, cell),
            Statement::Submit { id, ops, info } => self.add_to_batch(alloc, id, ops, info),
            Statement::Go(plan) => self.go_as(alloc, &plan),
            Statement::Show => self.show(alloc),
            Statement::Export => self.export(alloc),
            Statement::Order => self.order(alloc),
            Statement::Audit => self.audit(alloc),
            Statement::Resume(_) | Statement::Prune | Statement::Purge => {
                Err(Refusal::Objected(Objection::NotBuilt))
            }
        }
    }

    fn place_document(&mut self, alloc: Global, key: Key, body: Value) -> Result<Answer, Refusal>
        requires stands { Stands S.Store self.old }
        requires cleared { self.old.batch ≡ [] }
        ensures { HasAttended S.Store (statement.Doc key body) self.old self.new result }
    {
        let cell = placed_doc(alloc, body);
        self.place_at(alloc, &Name::Doc(key), cell)?;
        Ok(Answer::Nothing)
    }

    /// What a cell line places may be sound or not, so no batch is run behind it.
    fn place_cell(&mut self, alloc: Global, name: Name, cell: Cell) -> Result<Answer, Refusal>
        requires stands { Stands S.Store self.old }
        requires cleared { self.old.batch ≡ [] }
        ensures { HasAttended S.Store (statement.Place name cell) self.old self.new result }
    {
        self.place_at(alloc, &name, cell)?;
        self.documents_alone = false;
        Ok(Answer::Nothing)
    }

    fn place_at(&mut self, alloc: Global, name: &Name, cell: Cell) -> Result<(), Refusal>
        ensures placed { IsTrue S.tells → OnOk result
            ((against_placing (at S.Store self.old) name.now cell ≡ None)
            × (S.content self.new.store ≡ insert (S.content self.old.store) name.now cell)) }
        ensures against { IsTrue S.tells → IfErr result
            (IsAgainst (against_placing (at S.Store self.old) name.now cell)) }
        ensures left { IsTrue S.tells → OnErr result
            (S.content self.new.store ≡ S.content self.old.store) }
        ensures unbegun { OnOk result (self.old.begun ≡ false) }
        ensures idle { self.old.begun ≡ true → self.new.store ≡ self.old.store }
        ensures rest { (self.new.batch ≡ self.old.batch) × (self.new.begun ≡ self.old.begun)
            × (self.new.documents_alone ≡ self.old.documents_alone)
            × (self.new.runs.items ≡ self.old.runs.items) }
        ensures caused { IfErr result (IsCaused S.Store self.old self.new) }
        ensures found { IfErr result IsUnfound }
        ensures calls { CallsGoOn S.Store self.old.store self.new.store }
    {
        if self.begun {
            return Err(Refusal::Objected(Objection::PlacedTooLate));
        }
        if place(alloc, &mut self.store, name, cell)? {
            Ok(())
        } else {
            Err(Refusal::Objected(Objection::PlacedTwice))
        }
    }

    fn add_to_batch(
        &mut self,
        alloc: Global,
        id: TxnId,
        ops: Ops,
        info: Option<Value>,
    ) -> Result<Answer, Refusal>
        requires stands { Stands S.Store self.old }
        ensures { HasAttended S.Store (statement.Submit id ops info) self.old self.new result }
    {
        if self.batch.is_full() {
            return Err(Refusal::Objected(Objection::TooManyWaiting));
        }
        if self.batch.has(id) {
            return Err(Refusal::Objected(Objection::IdExists));
        }
        if let Some(why) = against_record(alloc, &mut self.store, id, &ops)? {
            return Err(Refusal::Objected(why));
        }
        self.batch.push(Waiting { id, ops, info })?;
        self.begun = true;
        Ok(Answer::Nothing)
    }

    /// One runner alone is built.
    fn go_as(&mut self, alloc: Global, plan: &GoPlan) -> Result<Answer, Refusal>
        requires stands { Stands S.Store self.old }
        ensures { HasAttended S.Store (statement.Go plan.now) self.old self.new result }
    {
        if is_default(plan) {
            self.go(alloc)
        } else {
            Err(Refusal::Objected(Objection::NotBuilt))
        }
    }

    /// Runs the batch, and answers how its records stand.
    pub fn go(&mut self, alloc: Global) -> Result<Answer, Refusal>
        requires stands { Stands S.Store self.old }
        ensures done { IsTrue S.tells → IfOk result
            (RunsBatch (at S.Store self.old) (at S.Store self.new)) }
        ensures allowed { OnOk result (self.old.documents_alone ≡ true) }
        ensures cleared { OnOk result (self.new.batch ≡ []) }
        ensures against { IfErr result (IsAgainst (unless_alone (at S.Store self.old))) }
        ensures refused { IfErr result (IsRefused S.Store true self.old self.new) }
        ensures kept { IsKept S.Store self.old self.new result }
    {
        if !self.documents_alone {
            return Err(Refusal::Objected(Objection::NotBuilt));
        }
        let states = run_batch(
            alloc,
            &mut self.store,
            &mut self.runs,
            self.batch.as_slice(),
        )?;
        self.batch.clear();
        self.begun = true;
        Ok(Answer::States(states))
    }

    fn show(&mut self, alloc: Global) -> Result<Answer, Refusal>
        requires stands { Stands S.Store self.old }
        requires cleared { self.old.batch ≡ [] }
        ensures { HasAttended S.Store statement.Show self.old self.new result }
    {
        let docs = documents(alloc, &mut self.store)?;
        self.begun = true;
        Ok(Answer::Documents(docs))
    }

    fn export(&mut self, alloc: Global) -> Result<Answer, Refusal>
        requires stands { Stands S.Store self.old }
        requires cleared { self.old.batch ≡ [] }
        ensures { HasAttended S.Store statement.Export self.old self.new result }
    {
        let cells = cells(alloc, &mut self.store)?;
        self.begun = true;
        Ok(Answer::Cells(cells))
    }

    fn order(&mut self, alloc: Global) -> Result<Answer, Refusal>
        requires stands { Stands S.Store self.old }
        requires cleared { self.old.batch ≡ [] }
        ensures { HasAttended S.Store statement.Order self.old self.new result }
    {
        let order = decided_in(alloc, self.runs.as_slice())?;
        self.begun = true;
        Ok(Answer::Order(order))
    }

    fn audit(&mut self, alloc: Global) -> Result<Answer, Refusal>
        requires stands { Stands S.Store self.old }
        requires cleared { self.old.batch ≡ [] }
        ensures { HasAttended S.Store statement.Audit self.old self.new result }
    {
        let found = finding(alloc, &mut self.store)?;
        self.begun = true;
        Ok(Answer::Audited(found))
    }
}
