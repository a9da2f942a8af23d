//! The runner of one transaction at a time: how a transaction is submitted and settled, by calls on one
//! cell of the store each.
//!
//! Whatever store is under it, each call's refusal has its cause; over one that tells what it holds, the
//! calls for a transaction decide nothing but it, each place is sound, and no other record is touched
//! (`settle#works`, `submit#works`).
#![tactic(auto)]

mod assertions;
mod built;
mod calls;
mod error;
mod settling;
mod stage;
mod steps;
mod waiting;

pub use built::{is_built, only};
pub use error::StepError;
pub use settling::settle;
pub use stage::Stage;
pub use steps::submit;
pub use waiting::Waiting;
