// The leaf library: the log's frames, read and written over a log that is lent. A file for each file of the Rust, and what these share.
#![tactic(auto)]

pub mod argument;
pub mod bit_utils;
mod buffer_builder;
pub mod buffer_claim;
pub mod cast;
mod copying;
pub mod data_frame_header;
pub mod errors;
mod field;
pub mod fragment_assembler;
pub mod frame_descriptor;
pub mod header;
pub mod log_buffer_descriptor;
pub mod term_appender;
pub mod term_reader;
pub mod term_scan;
pub mod way;
