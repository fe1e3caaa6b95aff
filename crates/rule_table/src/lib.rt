//! Tables of refusals: the number of the first row that holds.
#![tactic(auto)]

mod table;

pub use table::RuleTable;
