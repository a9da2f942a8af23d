//! Each rule but the last, at each cell.

ghost use Rattle.std.specs.Prelude.{◌≡◌, ◌<◌, ◌≤◌, ◌↔◌, IsTrue, IfOk};
ghost use Rattle.store_laws.specs.Soundness.{Holds, AppliesReady, DecidedSealed, InQueues, OnChain};
ghost use Rattle.txn_audit.specs.Checks.{AreFacts, IsCellOf, IsFirstPlace, IsFirstFlaw};
ghost use Rattle.txn_audit.specs.Flaws.{rule_of};
ghost use Rattle.listed_cells.specs.Listing.{IsListing, content_of};
ghost use Rattle.txn_record.specs.States.{was_decided_state};
ghost use Rattle.store_trait.specs.Names.{same_state};

use crate::entries::has_sound_entry;
use crate::marks::is_marked_soundly;
use crate::nonces::are_nonces_below;
use crate::numbers::is_numbered;
use crate::on_chain::stands_on_chain;
use doc_value::OutOfMemory;
use listed_cells::{Order, Standing, counter, has_tokens};
use std::alloc::Global;
use store_trait::{Cell, Named};
use txn_record::State;

/// What the rules look up, made by one pass over the cells and their queues.
#[derive(Drop)]
pub(crate) struct Facts {
    counter: u32,
    standing: Standing,
    order: Order,
}

impl Facts {
    pub(crate) fn new(alloc: Global, cells: &[Named]) -> Result<Facts, OutOfMemory>
        requires { IsListing cells.now }
        ensures { IfOk result (AreFacts cells.now) }
    {
        Ok(Facts {
            counter: counter(cells),
            standing: Standing::new(alloc, cells)?,
            order: Order::new(alloc, cells)?,
        })
    }
}

/// A rule that fails, by its number, and the place of the first cell at whose name it does.
#[derive(Drop)]
pub(crate) struct Flaw {
    pub rule: u8,
    pub place: usize,
}

/// The first rule below 10 that fails, if one does. Each is tried at all cells before the next.
pub(crate) fn first_flaw(
    alloc: Global,
    cells: &[Named],
    facts: &Facts,
) -> Result<Option<Flaw>, OutOfMemory>
    requires listed { IsListing cells.now }
    requires facts { AreFacts cells.now facts.now }
    ensures { IfOk result (IsFirstFlaw cells.now) }
{
    for number in 1..10 {
        if let Some(place) = first_place(alloc, cells, facts, number)? {
            return Ok(Some(Flaw {
                rule: number,
                place,
            }));
        }
    }
    Ok(None)
}

/// The place of the first cell at whose name a rule fails, if it does.
fn first_place(
    alloc: Global,
    cells: &[Named],
    facts: &Facts,
    number: u8,
) -> Result<Option<usize>, OutOfMemory>
    requires listed { IsListing cells.now }
    requires facts { AreFacts cells.now facts.now }
    requires number { (1 ≤ number) × (number < 10) }
    ensures { IfOk result (IsFirstPlace (rule_of number) cells.now) }
{
    for place in 0..cells.len() {
        if !holds(alloc, cells, facts, number, &cells[place])? {
            return Ok(Some(place));
        }
    }
    Ok(None)
}

/// Whether a rule holds at the name of a cell.
fn holds(
    alloc: Global,
    cells: &[Named],
    facts: &Facts,
    number: u8,
    named: &Named,
) -> Result<bool, OutOfMemory>
    requires listed { IsListing cells.now }
    requires facts { AreFacts cells.now facts.now }
    requires number { (1 ≤ number) × (number < 10) }
    requires there { IsCellOf (content_of cells.now) named.now }
    ensures { IfOk result (λ holds. IsTrue holds ↔
        Holds (rule_of number) (content_of cells.now) named.now.name) }
{
    match number {
        1 => Ok(is_numbered(&named.cell)),
        2 => has_tokens(alloc, cells, named),
        3 => Ok(are_nonces_below(facts.counter, &named.cell)),
        4 => Ok(is_in_queues(cells, facts, named)),
        5 => applies_ready(alloc, cells, facts, named),
        6 => Ok(is_sealed(cells, facts, named)),
        7 => Ok(is_marked_soundly(cells, &named.name)),
        8 => Ok(has_sound_entry(cells, &named.name)),
        _ => Ok(is_on_chain(cells, named)),
    }
}

fn is_in_queues(cells: &[Named], facts: &Facts, named: &Named) -> bool
    requires listed { IsListing cells.now }
    requires facts { AreFacts cells.now facts.now }
    requires there { IsCellOf (content_of cells.now) named.now }
    ensures { IsTrue result ↔ Holds InQueues (content_of cells.now) named.now.name }
{
    match &named.cell {
        Cell::Record(rec) => facts.standing.is_in_queues(cells, rec),
        _ => true,
    }
}

fn applies_ready(
    alloc: Global,
    cells: &[Named],
    facts: &Facts,
    named: &Named,
) -> Result<bool, OutOfMemory>
    requires listed { IsListing cells.now }
    requires facts { AreFacts cells.now facts.now }
    requires there { IsCellOf (content_of cells.now) named.now }
    ensures { IfOk result (λ holds. IsTrue holds ↔
        Holds AppliesReady (content_of cells.now) named.now.name) }
{
    match &named.cell {
        Cell::Record(rec) if is_applying(rec.state) => facts.order.is_ready(alloc, cells, rec),
        _ => Ok(true),
    }
}

fn is_sealed(cells: &[Named], facts: &Facts, named: &Named) -> bool
    requires listed { IsListing cells.now }
    requires facts { AreFacts cells.now facts.now }
    requires there { IsCellOf (content_of cells.now) named.now }
    ensures { IsTrue result ↔ Holds DecidedSealed (content_of cells.now) named.now.name }
{
    match &named.cell {
        Cell::Record(rec) if is_past_prepared(rec.state) => facts.order.is_sealed(cells, rec),
        _ => true,
    }
}

fn is_applying(state: State) -> bool
    ensures { result ≡ same_state State.Applying state }
{
    matches!(state, State::Applying)
}

/// Whether it was decided that a record applies or aborts.
fn is_past_prepared(state: State) -> bool
    ensures { result ≡ was_decided_state state }
{
    !matches!(state, State::Preparing | State::Prepared)
}

fn is_on_chain(cells: &[Named], named: &Named) -> bool
    requires listed { IsListing cells.now }
    requires there { IsCellOf (content_of cells.now) named.now }
    ensures { IsTrue result ↔ Holds OnChain (content_of cells.now) named.now.name }
{
    match &named.cell {
        Cell::Record(rec) if is_applying(rec.state) => stands_on_chain(cells, rec),
        _ => true,
    }
}
