// The log for C and Rust: every call of the crates below under a C name, its answer as numbers. What C keeps between calls, a record, an image, an
// assembler or a replay, it lends by a pointer, as words; the header include/logbuffer.h says what each call does. Read words and replies next.
#![tactic(auto)]

mod cards;
mod descriptor;
mod holdings;
mod images;
mod reading;
mod replays;
mod replies;
mod sections;
mod shelves;
mod tallies;
mod words;
mod writing;
