//! The rule `Nonces`: each nonce in a cell was drawn, so it is below the counter.
ghost use Rattle.std.specs.Prelude.{◌≡◌, ◌<◌, ◌↔◌, ◌++◌, IsTrue, IfSome, nat_lt, option_to_list};
ghost use Rattle.std.specs.List.{list_all};
ghost use Rattle.store_laws.specs.Soundness.{AllBelow, NoncesBelow};

use store_trait::Cell;
use txn_key::Token;

/// Whether each nonce in a cell is below a limit.
pub(crate) fn are_nonces_below(limit: u32, cell: &Cell) -> bool
    ensures { IsTrue result ↔ NoncesBelow limit cell.now }
{
    match cell {
        Cell::Record(rec) => is_drawn_below(limit, rec.nonce),
        Cell::Doc(doc) => are_below(limit, doc.queue.as_slice(), doc.remove),
        Cell::Stash(stash) => are_below(limit, stash.queue.as_slice(), stash.insert),
        Cell::Nonce(_) => true,
    }
}

/// Whether a nonce is below a limit, where there is one.
fn is_drawn_below(limit: u32, nonce: Option<u32>) -> bool
    ensures { IsTrue result ↔ IfSome nonce (λ drawn. drawn < limit) }
{
    match nonce {
        Some(drawn) => drawn < limit,
        None => true,
    }
}

/// Whether the nonces of a queue and of a mark are below a limit.
fn are_below(limit: u32, queue: &[Token], mark: Option<Token>) -> bool
    ensures { IsTrue result ↔ AllBelow limit (queue.now ++ option_to_list mark) }
{
    is_queue_below(limit, queue) && is_mark_below(limit, mark)
}

/// Whether each nonce of a queue is below a limit.
fn is_queue_below(limit: u32, queue: &[Token]) -> bool
    ensures { result ≡ list_all (λ x. nat_lt x.nonce limit) queue.now }
{
    queue.iter().all(|token| token.nonce < limit)
}

/// Whether the nonce of a mark is below a limit, where there is a mark.
fn is_mark_below(limit: u32, mark: Option<Token>) -> bool
    ensures { result ≡ list_all (λ x. nat_lt x.nonce limit) (option_to_list mark) }
{
    match mark {
        Some(token) => token.nonce < limit,
        None => true,
    }
}
