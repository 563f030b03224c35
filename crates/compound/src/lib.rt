//! Resources made of others: a bank is two of them as one, and a quota is one with a limit for each party.
#![tactic(auto)]

pub use bank::Bank;
pub use quota::{MOST_LIMIT, PARTIES, Quota};

mod asking;
mod bank;
mod quota;
