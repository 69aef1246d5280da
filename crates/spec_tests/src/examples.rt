//! Tests of the examples: `lossy_port`, `five_files`, `two_copies` and `counting_keeper`.
mod copies;
mod counting;
mod files;
mod lossy;
