// Examples of what the blocks and the stores do; each is proved and then run.
#![tactic(auto)]

pub mod asking;
#[cfg(test)]
mod attributes;
#[cfg(test)]
mod catalogues;
#[cfg(test)]
mod finding;
#[cfg(test)]
mod idns;
#[cfg(test)]
mod layouts;
#[cfg(test)]
mod lists;
#[cfg(test)]
mod make;
#[cfg(test)]
mod many;
#[cfg(test)]
mod values;
