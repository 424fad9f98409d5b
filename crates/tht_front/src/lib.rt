//! The program over any source and sink.
#![tactic(auto)]

mod alone;
mod answer;
mod course;
mod decided;
mod laws;
mod lines;
mod report;
mod run;
mod task;
mod words;

pub use alone::tht_alone;
pub use laws::one_answer;
