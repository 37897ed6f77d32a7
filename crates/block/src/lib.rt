// The data block: IDN, keeper, attribute, limits, and what the rules ask of them.
#![tactic(auto)]

pub mod attribute;
pub mod idn;
pub mod idns;
pub mod keeper;
pub mod limits;
pub mod phase;
pub mod value;
pub mod view;
