// The worked cases of the tree by itself, over looks of the tests.
mod definitions;
mod limits;
mod looks;
mod pieces;
mod requests;
