//! Tests over the public functions of several crates: the worked cases of the specification that no
//! run of the program shows, and tests of the commands and of the example crates. The library itself
//! is one function, `simulate_in_lists`.
#![tactic(auto)]

#[cfg(test)]
mod commands;
#[cfg(test)]
mod events;
#[cfg(test)]
mod examples;
#[cfg(test)]
mod hex;
#[cfg(test)]
mod keepers;
#[cfg(test)]
mod links;
mod lists;
#[cfg(test)]
mod messages;
#[cfg(test)]
mod requests;
#[cfg(test)]
mod run;
#[cfg(test)]
mod sessions;
#[cfg(test)]
mod settling;
#[cfg(test)]
mod texts;
#[cfg(test)]
mod tree;

pub use lists::simulate_in_lists;
