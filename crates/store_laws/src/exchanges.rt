//! Chains of calls on a store, whatever store it is.
ghost use Rattle.std.specs.Prelude.{◌≤◌};
ghost use Rattle.store_trait.specs.Calls.{Exchange};
ghost use Rattle.store_trait.specs.Exchanges.{IsExchange, Exchanged};

use store_trait::Store;

/// A chain may be of no call, or of one; one that goes on from another is one with it; and no chain
/// takes a call back.
pub fn exchanges_follow<S: Store>()
    ensures none { (s : S) → Exchanged S.Store s s }
    ensures one { (old new : S) (exchange : Exchange) →
        IsExchange S.Store old exchange new → Exchanged S.Store old new }
    ensures joined { (first between last : S) →
        Exchanged S.Store first between → Exchanged S.Store between last →
        Exchanged S.Store first last }
    ensures later { (first last : S) →
        Exchanged S.Store first last → S.calls first ≤ S.calls last }
{}
