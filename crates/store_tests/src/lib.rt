//! Tests of a store in tables: each call of a keeper over a connection in memory, and recovery over
//! disks that stop at each of their calls: the store that is opened then has the committed steps. Also
//! a store that is opened from its files and closed into them, and a data file by itself.
#![tactic(auto)]

#[cfg(test)]
mod blocks;
#[cfg(test)]
mod creations;
#[cfg(test)]
mod data_files;
#[cfg(test)]
mod data_stops;
#[cfg(test)]
mod disks;
#[cfg(test)]
mod everyday;
#[cfg(test)]
mod extents;
#[cfg(test)]
mod files;
#[cfg(test)]
mod group_works;
#[cfg(test)]
mod groups;
#[cfg(test)]
mod guest_keepers;
#[cfg(test)]
mod guest_pairs;
#[cfg(test)]
mod guest_stores;
#[cfg(test)]
mod halves;
#[cfg(test)]
mod keepers;
#[cfg(test)]
mod large_values;
#[cfg(test)]
mod migrations;
#[cfg(test)]
mod observations;
#[cfg(test)]
mod pieces;
#[cfg(test)]
mod requests;
#[cfg(test)]
mod rooms;
#[cfg(test)]
mod stops;
#[cfg(test)]
mod stores;
#[cfg(test)]
mod works;
