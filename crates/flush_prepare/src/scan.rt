ghost use Rattle.std.specs.Prelude.{◌≡◌, ◌≤◌, None, Some, IfSome, MatchOption, length, take};
ghost use Rattle.flush_prepare.specs.Queues.{scanned};

use crate::calls::read;
use crate::error::StepError;
use crate::key_queue::{KeyQueue, first_and_later};
use crate::sight::{count_before, owner_queue};
use crate::token_list::TokenList;
use doc_value::OutOfMemory;
use sqlite_items::Items;
use std::alloc::Global;
use store_trait::{Cell, DocCell, Name, Store, doc_in, stash_in};
use txn_key::{Key, Token};
use txn_record::Record;

/// What a step of a scan came to.
#[derive(Drop)]
pub enum ScanStep {
    /// There is more to read.
    More,
    /// The tokens that stand before the record's own, on one key after the other.
    Scanned(Items<Token>),
    /// The record isn't settled, and its own token isn't in the queue that was read.
    Gone,
}

/// Which cell of the present key is read next. The document comes first: were it read after the stash
/// entry, a removal between the two reads would show an entry as owner that is outdated.
#[derive(Drop)]
pub(crate) enum NextRead {
    Document,
    Entry(Option<DocCell>),
}

/// Reads the queues of a record's keys, for the tokens that stand before its own.
#[derive(Drop)]
pub struct Scan {
    rec: Record,
    key: Key,
    later: KeyQueue,
    found: TokenList,
    next: NextRead,
}

impl Scan {
    ghost use Rattle.std.specs.Prelude.{◌≡◌, ◌<◌, ◌≤◌, ◌+◌, ◌*◌, ◌++◌, length, take, true, IsTrue, IfOk, IfErr, OnErr, MatchOption, MatchResult, None, Some, Ok, [], ◌∷◌};
    ghost use Rattle.txn_record.specs.Chain.{keys_of};
    ghost use Rattle.txn_record.specs.States.{was_prepared_state};
    ghost use Rattle.store_trait.specs.Contents.{Content};
    ghost use Rattle.store_trait.specs.Stores.{OneCall};
    ghost use Rattle.store_laws.specs.Soundness.{IsSound};
    ghost use Rattle.flush_prepare.specs.Moments.{WasStored};
    ghost use Rattle.flush_prepare.specs.Refusals.{IsOfStore};
    ghost use Rattle.flush_prepare.specs.Scans.{name_of, answer_to, after_read, key_done, answer_done, due, ScanGoes, IsScanning, ComesTo, ComesNearer};

    /// A scan of a record that was prepared.
    pub fn new(alloc: Global, rec: Record) -> Result<Scan, OutOfMemory>
        requires { was_prepared_state rec.state ≡ true }
        ensures begins { IfOk result (λ scan. (c : Content) → IsSound c →
            WasStored c rec → IsScanning c scan) }
        ensures of { IfOk result (λ scan. scan.rec ≡ rec) }
        ensures due { IfOk result (λ scan. due scan ≤ 2 * length (keys_of rec.ops)) }
    {
        let (key, later) = first_and_later(alloc, &rec.ops)?;
        Ok(Scan {
            rec,
            key,
            later,
            found: TokenList::new(alloc),
            next: NextRead::Document,
        })
    }

    /// Makes one read.
    pub fn step<S: Store>(&mut self, alloc: Global, store: &mut S) -> Result<ScanStep, StepError>
        requires worth { IsTrue S.tells → IsScanning (S.content store.old) self.old }
        ensures kept { OneCall S.Store store.old store.new result StepError.StoreFault }
        ensures goes { ScanGoes S.Store store.old self.old result self.new store.new }
        ensures same { IsTrue S.tells → S.content store.new ≡ S.content store.old }
        ensures comes { IsTrue S.tells → ComesTo (S.content store.new) self.new result }
        ensures nearer { IfOk result (λ answer. ComesNearer self.old answer self.new) }
        ensures stays { OnErr result (self.new ≡ self.old) }
        ensures cause { IfErr result IsOfStore }
    {
        let name = self.name(alloc)?;
        let found = read(alloc, store, &name)?;
        Ok(self.take(alloc, found)?)
    }

    /// The name of the cell that is read next.
    fn name(&self, alloc: Global) -> Result<Name, OutOfMemory>
        ensures { IfOk result (λ name. name ≡ name_of self.now) }
    {
        let key = self.key.copy(alloc)?;
        match &self.next {
            NextRead::Document => Ok(Name::Doc(key)),
            NextRead::Entry(_) => Ok(Name::Stash(key)),
        }
    }

    /// Goes on with the cell that was read.
    fn take(&mut self, alloc: Global, found: Option<Cell>) -> Result<ScanStep, OutOfMemory>
        ensures answer { IfOk result (λ answer. answer ≡ answer_to self.old found) }
        ensures after { MatchResult result (λ answer. self.new ≡ after_read self.old found)
            (λ error. self.new ≡ self.old) }
    {
        match &self.next {
            NextRead::Document => {
                self.next = NextRead::Entry(doc_in(found));
                Ok(ScanStep::More)
            }
            NextRead::Entry(doc) => {
                let stash = stash_in(found);
                let queue = owner_queue(doc.as_ref(), stash.as_ref());
                match scanned(&self.rec, queue) {
                    None => Ok(ScanStep::Gone),
                    Some(count) => {
                        self.found.extend(&queue[..count])?;
                        Ok(self.finish_key(alloc))
                    }
                }
            }
        }
    }

    /// Goes on to the next key, if there is one.
    fn finish_key(&mut self, alloc: Global) -> ScanStep
        ensures answer { result ≡ answer_done self.old.later self.old.found }
        ensures after { self.new ≡ key_done self.old.later self.old }
    {
        match self.later.pop() {
            Some(key) => {
                self.key = key;
                self.next = NextRead::Document;
                ScanStep::More
            }
            None => ScanStep::Scanned(self.found.take(alloc)),
        }
    }
}

/// How many tokens a scan takes from the front of a queue: those before the record's own.
fn scanned(rec: &Record, queue: &[Token]) -> Option<usize>
    ensures found { MatchOption result (scanned rec.now queue.now ≡ None)
        (λ n. scanned rec.now queue.now ≡ Some (take n queue.now)) }
    ensures within { IfSome result (λ n. n ≤ length queue.now) }
{
    let place = match rec.nonce {
        Some(nonce) => count_before(&Token { id: rec.id, nonce }, queue),
        None => None,
    };
    match place {
        None if rec.is_settled() => Some(0),
        place => place,
    }
}
