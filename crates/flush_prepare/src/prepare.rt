ghost use Rattle.std.specs.Prelude.{◌≡◌};
ghost use Rattle.std.specs.Option.{option_copied};
ghost use Rattle.flush_prepare.specs.Draws.{drawn_of};
ghost use Rattle.flush_prepare.specs.Sights.{is_outdated};

use crate::calls::{edit, read};
use crate::error::StepError;
use crate::key_queue::{KeyQueue, first_and_later};
use crate::sight::{Sight, has_token, look_for};
use doc_value::OutOfMemory;
use std::alloc::Global;
use store_trait::{
    Cell, DocCell, Edit, Edited, Name, Side, StashCell, Store, counter_in, doc_in, record_in,
    stash_in,
};
use txn_key::{Key, Token, TxnId};
use txn_record::{Record, State};

/// The counter of nonces at which none is left.
const LAST_COUNTER: u32 = u32::MAX;

/// What a step of a preparation came to.
#[derive(Drop)]
pub enum PrepareStep {
    /// There is more to do.
    More,
    /// The owner of the present key is marked by this transaction, which has to be helped first. The key
    /// is begun again with the next step.
    Blocked(TxnId),
    /// The record as it stands, prepared or further on.
    Ready(Record),
}

/// Where a preparation stands: what its next call is.
#[derive(Drop)]
pub(crate) enum Place {
    /// A nonce is drawn.
    Draw,
    /// The present key's document is read. It comes before the stash entry: were it read after, a removal
    /// between the two reads would show an entry as owner that is outdated.
    Document { nonce: u32 },
    /// Its stash entry is read, the document having been read so.
    Entry { nonce: u32, doc: Option<DocCell> },
    /// The token is added to the document.
    AddToDocument { nonce: u32 },
    /// The token is added to the stash entry, or to one that this makes.
    AddToEntry { nonce: u32 },
    /// The stash entry is read once more, the token having been added to the document at this number. The
    /// document may have been outdated by then, put back by a late helper of an insertion.
    EntryAgain { nonce: u32, revno: i64 },
    /// The record is moved on to prepared.
    Move { nonce: u32 },
}

/// Draws a nonce for a record, puts the token with it into the queue of each of its keys, and moves the
/// record on to prepared.
#[derive(Drop)]
pub struct Prepare {
    rec: Record,
    key: Key,
    later: KeyQueue,
    place: Place,
}

impl Prepare {
    ghost use Rattle.std.specs.Prelude.{◌≡◌, ◌≤◌, ◌+◌, ◌*◌, ◌∷◌, length, true, IsTrue, IfOk, IfErr, OnErr, None, Some, IsSome};
    ghost use Rattle.txn_record.specs.Chain.{keys_of};
    ghost use Rattle.txn_record.specs.declared.state.State.TheVariants as state;
    ghost use Rattle.store_trait.specs.Contents.{Content};
    ghost use Rattle.store_trait.specs.Stores.{OneCall};
    ghost use Rattle.store_laws.specs.Readiness.{token};
    ghost use Rattle.store_laws.specs.Soundness.{IsSound};
    ghost use Rattle.flush_prepare.specs.Moments.{WasStored};
    ghost use Rattle.flush_prepare.specs.Preparations.{name_of, edit_of, read_answer, after_read, edit_answer, after_edit, seen_answer, after_seen, key_done, PrepareGoes};
    ghost use Rattle.flush_prepare.specs.PrepareFacts.{IsPreparing, Prepares};
    ghost use Rattle.flush_prepare.specs.Causes.{HasCause};
    ghost use Rattle.flush_prepare.specs.Progress.{due, ComesNearer};

    /// A preparation of a record that is preparing.
    pub fn new(alloc: Global, rec: Record) -> Result<Prepare, OutOfMemory>
        requires { rec.state ≡ state.Preparing }
        ensures begins { IfOk result (λ prepare. (c : Content) → IsSound c →
            WasStored c rec → IsPreparing c prepare) }
        ensures of { IfOk result (λ prepare. prepare.rec ≡ rec) }
        ensures keys { IfOk result (λ prepare. keys_of rec.ops ≡ prepare.key ∷ prepare.later) }
        ensures due { IfOk result (λ prepare. due prepare ≤ 4 * length (keys_of rec.ops) + 2) }
    {
        let (key, later) = first_and_later(alloc, &rec.ops)?;
        Ok(Prepare {
            rec,
            key,
            later,
            place: Place::Draw,
        })
    }

    /// Makes one call.
    pub fn step<S: Store>(&mut self, alloc: Global, store: &mut S) -> Result<PrepareStep, StepError>
        requires worth { IsTrue S.tells → IsPreparing (S.content store.old) self.old }
        ensures kept { OneCall S.Store store.old store.new result StepError.StoreFault }
        ensures goes { PrepareGoes S.Store store.old self.old result self.new store.new }
        ensures prepares { IsTrue S.tells → Prepares (S.content store.old)
            (S.content store.new) self.old result self.new }
        ensures nearer { IfOk result (λ answer. ComesNearer self.old answer self.new) }
        ensures stays { OnErr result (self.new ≡ self.old) }
        ensures cause { IfErr result
            (HasCause S.Store store.old store.new self.old.rec.id) }
    {
        self.call(alloc, store)
    }

    fn call<S: Store>(&mut self, alloc: Global, store: &mut S) -> Result<PrepareStep, StepError>
        ensures kept { OneCall S.Store store.old store.new result StepError.StoreFault }
        ensures goes { PrepareGoes S.Store store.old self.old result self.new store.new }
    {
        let name = self.name(alloc)?;
        match self.edit() {
            None => self.make_read(alloc, store, name),
            Some(change) => self.make_edit(alloc, store, name, change),
        }
    }

    fn make_read<S: Store>(
        &mut self,
        alloc: Global,
        store: &mut S,
        name: Name,
    ) -> Result<PrepareStep, StepError>
        requires reads { edit_of self.old ≡ None }
        requires name { name ≡ name_of self.old }
        ensures kept { OneCall S.Store store.old store.new result StepError.StoreFault }
        ensures goes { PrepareGoes S.Store store.old self.old result self.new store.new }
    {
        let found = read(alloc, store, &name)?;
        Ok(self.take_read(found))
    }

    fn make_edit<S: Store>(
        &mut self,
        alloc: Global,
        store: &mut S,
        name: Name,
        change: Edit,
    ) -> Result<PrepareStep, StepError>
        requires edits { edit_of self.old ≡ Some change }
        requires name { name ≡ name_of self.old }
        ensures kept { OneCall S.Store store.old store.new result StepError.StoreFault }
        ensures goes { PrepareGoes S.Store store.old self.old result self.new store.new }
    {
        let done = edit(alloc, store, &name, change)?;
        self.take_edit(name, done)
    }

    fn token(&self, nonce: u32) -> Token
        ensures { result ≡ token self.now.rec.id nonce }
    {
        Token {
            id: self.rec.id,
            nonce,
        }
    }

    /// The name of the cell that is read or edited next.
    fn name(&self, alloc: Global) -> Result<Name, OutOfMemory>
        ensures { IfOk result (λ name. name ≡ name_of self.now) }
    {
        match &self.place {
            Place::Draw => Ok(Name::Nonce),
            Place::Document { .. } | Place::AddToDocument { .. } => Ok(Name::Doc(
                self.key.copy(alloc)?,
            )),
            Place::Entry { .. } | Place::AddToEntry { .. } | Place::EntryAgain { .. } => Ok(
                Name::Stash(self.key.copy(alloc)?),
            ),
            Place::Move { .. } => Ok(Name::Record(self.rec.id)),
        }
    }

    /// The edit that is made next, unless it is a read.
    fn edit(&self) -> Option<Edit>
        ensures { result ≡ edit_of self.now }
    {
        match &self.place {
            Place::Draw => Some(Edit::DrawNonce),
            Place::AddToDocument { nonce } | Place::AddToEntry { nonce } => Some(Edit::AddToken {
                token: self.token(*nonce),
            }),
            Place::Move { nonce } => Some(Edit::Move {
                from: State::Preparing,
                to: State::Prepared,
                nonce: Some(*nonce),
                revnos: None,
            }),
            Place::Document { .. } | Place::Entry { .. } | Place::EntryAgain { .. } => None,
        }
    }

    /// Goes on with the cell that was read.
    fn take_read(&mut self, found: Option<Cell>) -> PrepareStep
        requires { edit_of self.old ≡ None }
        ensures answer { result ≡ read_answer self.old found }
        ensures after { self.new ≡ after_read self.old found }
    {
        match &self.place {
            Place::Document { nonce } => {
                let nonce = *nonce;
                let doc = doc_in(found);
                self.place = Place::Entry { nonce, doc };
                PrepareStep::More
            }
            Place::Entry { nonce, doc } => {
                let nonce = *nonce;
                let stash = stash_in(found);
                let sight = look_for(&self.token(nonce), doc.as_ref(), stash.as_ref());
                self.see(nonce, sight)
            }
            Place::EntryAgain { nonce, revno } => {
                let nonce = *nonce;
                let stash = stash_in(found);
                if is_outdated(*revno, &self.token(nonce), stash.as_ref()) {
                    self.place = Place::Document { nonce };
                } else {
                    self.finish_key(nonce);
                }
                PrepareStep::More
            }
            _ => unreachable!(),
        }
    }

    /// Goes on with what the present key's two cells show.
    fn see(&mut self, nonce: u32, sight: Sight) -> PrepareStep
        ensures answer { result ≡ seen_answer sight }
        ensures after { self.new ≡ after_seen self.old nonce sight }
    {
        match sight {
            Sight::Queued => {
                self.finish_key(nonce);
                PrepareStep::More
            }
            Sight::Marked(mark) => {
                self.place = Place::Document { nonce };
                PrepareStep::Blocked(mark.id)
            }
            Sight::Free(Side::Document) => {
                self.place = Place::AddToDocument { nonce };
                PrepareStep::More
            }
            Sight::Free(_) => {
                self.place = Place::AddToEntry { nonce };
                PrepareStep::More
            }
        }
    }

    /// Goes on to the next key, or to the move if all keys are done.
    fn finish_key(&mut self, nonce: u32)
        ensures { self.new ≡ key_done self.old nonce }
    {
        match self.later.pop() {
            Some(key) => {
                self.key = key;
                self.place = Place::Document { nonce };
            }
            None => self.place = Place::Move { nonce },
        }
    }

    /// Goes on with what an edit of that name came to.
    fn take_edit(&mut self, name: Name, done: Edited) -> Result<PrepareStep, StepError>
        requires edits { IsSome (edit_of self.old) }
        requires name { name ≡ name_of self.old }
        ensures answer { result ≡ edit_answer self.old done }
        ensures after { self.new ≡ after_edit self.old done }
    {
        let Edited { hit, cell } = done;
        match &self.place {
            Place::Draw => {
                let nonce = drawn(self.rec.id, hit, counter_in(cell))?;
                self.place = Place::Document { nonce };
                Ok(PrepareStep::More)
            }
            Place::AddToDocument { nonce } => {
                let nonce = *nonce;
                if !hit {
                    self.place = Place::Document { nonce };
                    return Ok(PrepareStep::More);
                }
                match doc_in(cell) {
                    Some(doc) => {
                        let revno = doc.revno;
                        self.place = Place::EntryAgain { nonce, revno };
                        Ok(PrepareStep::More)
                    }
                    None => Err(StepError::Clash {
                        id: self.rec.id,
                        at: name,
                    }),
                }
            }
            Place::AddToEntry { nonce } => {
                let nonce = *nonce;
                if hit {
                    self.finish_key(nonce);
                } else {
                    self.place = Place::Document { nonce };
                }
                Ok(PrepareStep::More)
            }
            Place::Move { .. } => match record_in(cell) {
                Some(rec) if rec.is_decided() => Ok(PrepareStep::Ready(rec)),
                _ => Err(StepError::Clash {
                    id: self.rec.id,
                    at: name,
                }),
            },
            _ => unreachable!(),
        }
    }
}

/// The nonce that was drawn, by the counter after the call: the number before a hit. A miss at the last
/// counter says that no nonce is left.
fn drawn(id: TxnId, hit: bool, counter: Option<u32>) -> Result<u32, StepError>
    ensures { result ≡ drawn_of id hit counter }
{
    match counter {
        Some(counter) if hit && counter > 0 => Ok(counter - 1),
        Some(counter) if !hit && counter >= LAST_COUNTER => Err(StepError::NoncesSpent),
        _ => Err(StepError::Clash {
            id,
            at: Name::Nonce,
        }),
    }
}

/// Whether a document at a number is outdated, and the stash entry past it lacks the token.
fn is_outdated(revno: i64, token: &Token, stash: Option<&StashCell>) -> bool
    ensures { result ≡ is_outdated revno token.now (option_copied stash.entry) }
{
    match stash {
        Some(stash) => revno.unsigned_abs() < stash.revno.unsigned_abs()
            && !has_token(token, stash.queue.as_slice()),
        None => false,
    }
}
