//! What a key's two cells show, by the queue and the mark of their owner.
ghost use Rattle.std.specs.Prelude.{◌≡◌, ◌<◌, ◌≤◌, None, Some, IfSome, MatchOption, length, take};
ghost use Rattle.std.specs.List.{position_from};
ghost use Rattle.std.specs.Option.{option_copied};
ghost use Rattle.store_trait.specs.Edits.{has_token, same_token};
ghost use Rattle.store_laws.specs.View.{owner_queue};
ghost use Rattle.flush_prepare.specs.Queues.{before};
ghost use Rattle.flush_prepare.specs.Sights.{owner_mark, sight};

use store_trait::{DocCell, Side, StashCell, owner};
use txn_key::Token;

/// What a key shows of a token that is to wait on it.
#[derive(Clone, Copy)]
pub(crate) enum Sight {
    /// It waits there.
    Queued,
    /// The owner is about to be inserted or removed, by this token's transaction.
    Marked(Token),
    /// It can be added to the owner, be it there or not.
    Free(Side),
}

/// The queue of the cell that owns a key.
pub(crate) fn owner_queue<'a>(doc: Option<&'a DocCell>, stash: Option<&'a StashCell>) -> &'a [Token]
    ensures { result.now ≡ owner_queue (option_copied doc.entry) (option_copied stash.entry) }
{
    match (owner(doc, stash), doc, stash) {
        (Side::Document, Some(doc), _) => doc.queue.as_slice(),
        (Side::Stash, _, Some(stash)) => stash.queue.as_slice(),
        _ => &[],
    }
}

/// The mark of the cell that owns a key.
fn owner_mark(doc: Option<&DocCell>, stash: Option<&StashCell>) -> Option<Token>
    ensures { result ≡ owner_mark (option_copied doc.entry) (option_copied stash.entry) }
{
    match (owner(doc, stash), doc, stash) {
        (Side::Document, Some(doc), _) => doc.remove,
        (Side::Stash, _, Some(stash)) => stash.insert,
        _ => None,
    }
}

/// What a key's two cells show of a token.
pub(crate) fn look_for(token: &Token, doc: Option<&DocCell>, stash: Option<&StashCell>) -> Sight
    ensures { result ≡
        sight token.now (option_copied doc.entry) (option_copied stash.entry) }
{
    if has_token(token, owner_queue(doc, stash)) {
        return Sight::Queued;
    }
    match owner_mark(doc, stash) {
        Some(mark) => Sight::Marked(mark),
        None => Sight::Free(owner(doc, stash)),
    }
}

/// Whether a token is in a queue.
pub(crate) fn has_token(token: &Token, queue: &[Token]) -> bool
    ensures { result ≡ has_token token.now queue.now }
{
    queue.iter().any(|other| same_token(token, other))
}

/// How many tokens stand before one in a queue, where it is there.
pub(crate) fn count_before(token: &Token, queue: &[Token]) -> Option<usize>
    ensures found { MatchOption result (before token.now queue.now ≡ None)
        (λ n. before token.now queue.now ≡ Some (take n queue.now)) }
    ensures within { IfSome result (λ n. n ≤ length queue.now) }
{
    place_of(token, queue)
}

fn place_of(token: &Token, queue: &[Token]) -> Option<usize>
    ensures place { result ≡ position_from (same_token token.now) 0 queue.now }
    ensures within { IfSome result (λ n. n < length queue.now) }
{
    queue.iter().position(|other| same_token(token, other))
}

fn same_token(a: &Token, b: &Token) -> bool
    ensures { result ≡ same_token a.now b.now }
{
    a.id == b.id && a.nonce == b.nonce
}
