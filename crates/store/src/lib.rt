// What every store of data blocks must show, and what any store is asked: a search, and the one check of a value.
#![tactic(auto)]

pub mod scan;
pub mod store;
pub mod value;
