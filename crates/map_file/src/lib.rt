// One edit of a map file.
#![tactic(auto)]

pub mod edit;
