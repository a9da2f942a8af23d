//! The statements of a script: what each line states, or the fault by which it is refused (`read_line#exact`),
//! the text of each fault (`ScriptFault::text#exact`), and the lines in which cells, documents and the
//! entries of a recorded order are printed.
#![tactic(auto)]

mod fault;
mod plan;
mod print;
mod statement;

pub use fault::ScriptFault;
pub use plan::{GoPlan, Stop};
pub use print::{
    print_cell, print_doc, print_entry, print_name, push_cell, push_document, push_entry, push_key,
    push_name,
};
pub use statement::{Statement, read_line};
