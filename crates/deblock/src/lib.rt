// The calls for C and Rust, as an archive: a slice is a pointer and a length, a table a pointer.
#![tactic(auto)]

mod corrections;
mod filtering;
mod header;
mod list;
mod recording;
mod release;
mod tables;
