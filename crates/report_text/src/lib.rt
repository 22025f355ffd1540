// Words and numbers of a report, put into a lent buffer.
#![tactic(auto)]

pub mod text;
