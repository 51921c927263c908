//! What the author of a refused text is told beside the line and the code: which word is at fault and what is wanted there,
//! or which names a line as a whole is about.
//!
//! It is found by reading the text again, up to the line: of the lines before it, which were accepted, by what they declare;
//! of the line itself, by the forms of its words. Where that doesn't come to the code that was told, the line itself is said.
#![tactic(auto)]

mod advice;
mod capture;
mod file;
mod form;
mod grammar;
mod header;
mod place;
mod saying;
mod scenario_text;
mod systems;
mod whole;
mod word;

pub use advice::Advice;
pub use capture::{of_capture, of_vectors};
pub use scenario_text::{of_scenario, of_scenario_for_run, of_scenario_of_version_1};
