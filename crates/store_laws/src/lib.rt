//! Laws of contents: what each edit of a runner keeps of a sound content and decides, and what follows
//! from it for everyone else. Each is the contract of a function that does nothing.
#![tactic(auto)]

mod alone;
mod deciding;
mod documents;
mod edits;
mod entries;
mod exchanges;
mod forward;
mod gathering;
mod histories;
mod holding;
mod knowing;
mod plain;
mod preparing;
mod queueing;
mod queues;
mod reading;
mod settling;
mod submitting;

pub use alone::{being_alone_lasts, being_alone_makes_ready};
pub use deciding::{
    beginning_a_chain, deciding_to_abort, deciding_to_apply, testing_a_ready_record,
    testing_one_operation,
};
pub use documents::{bodies_as_they_lie, meaning_at_rest};
pub use edits::{edits_are_local, edits_hit, edits_leave};
pub use entries::adding_to_an_entry;
pub use exchanges::exchanges_follow;
pub use forward::{readiness_lasts, ready_records_share_no_key, steps_follow};
pub use gathering::{findings_last, gathering_the_ready, gatherings_last, scanning_own_keys};
pub use histories::{dividing_a_trail, growing_a_trail, reading_an_order, trusting_a_trail};
pub use holding::owning_a_key;
pub use knowing::{marked_cells_last, passing_lasts, queueing_lasts, records_last};
pub use plain::staying_plain;
pub use preparing::preparing_a_record;
pub use queueing::{adding_a_token, drawing_a_nonce, nonces_are_fresh, nonces_are_given};
pub use queues::adding_to_one_queue;
pub use reading::reading_a_key;
pub use settling::{
    closing_an_aborted_record, closing_an_applied_record, passing_an_operation, staying_done,
    updating_a_document, updating_too_late,
};
pub use submitting::{beginning_with_nothing, inserting_a_record, placing_a_document};
