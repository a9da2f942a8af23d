use store_trait::{Edit, Name};

/// An edit that changed a cell, and the number of its call. Made again, one after another, such
/// edits give the content after each call.
#[derive(Drop)]
pub struct Logged {
    pub at: u64,
    pub name: Name,
    pub edit: Edit,
}
