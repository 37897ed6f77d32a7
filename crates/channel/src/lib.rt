// The rules of the service channel as verdicts on plain values; the state they act on is elsewhere.
#![tactic(auto)]

pub mod code;
pub mod command;
pub mod control;
pub mod layout;
pub mod timing;
pub mod write;
