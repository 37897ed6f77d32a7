// Rows of blocks over lent memory: checked once, then read and changed in constant time.
#![tactic(auto)]

pub mod change;
mod finding;
mod layout;
pub mod plan;
pub mod row;
pub mod sheet;
pub mod shown;
