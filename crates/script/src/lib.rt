//! A booking script: its lines are read, dealt with by a broker, and answered by rows.
#![tactic(auto)]

pub use faults::{OnLine, ScriptFault, Unread};
pub use reader::{format_is_exact, read_line};
pub use rows::push_row;
pub use whole::{
    MOST_BYTES, answer_line, answer_script, lines_are_the_script, row_of_line, rows_are_pinned,
};

mod faults;
mod fields;
mod lines;
mod reader;
mod rows;
mod verbs;
mod whole;
