// Direct calls on a store as stored bytes, made and held against the answers stored with them.
#![tactic(auto)]

pub mod call;
pub mod points;
