//! Tests of the commands' endings, and of readers and writers that fail.
mod endings;
mod failing;
mod fakes;
mod running;
