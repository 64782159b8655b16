//! Unit tests of texts, of the outside and of the top call, of what no clause says:
//! - calls succeed with ample memory, and the definitions mean what they should
//! - the words of a call and the text of weights
//! - the lines of certificates, and their answers
//! - reports beside their texts, written by hand
//! - real files, calls that fail, and what a search hands on
//! - the printed runs of single executions and the printed edits, read back and tried
//!
//! What the program answers to whole calls is shown by the scripts of `trials`.
#![tactic(auto)]

#[cfg(test)]
mod cert_lines;
#[cfg(test)]
mod cert_sinks;
#[cfg(test)]
mod check;
#[cfg(test)]
mod edit_runs;
#[cfg(test)]
mod judge;
#[cfg(test)]
mod judge_of_all;
#[cfg(test)]
mod place_runs;
#[cfg(test)]
mod report;
#[cfg(test)]
mod rules;
#[cfg(test)]
mod samples;
#[cfg(test)]
mod support;
#[cfg(test)]
mod text;
#[cfg(test)]
mod tool_damage;
#[cfg(test)]
mod tool_faults;
#[cfg(test)]
mod tool_laws;
#[cfg(test)]
mod tool_searches;
#[cfg(test)]
mod weights;
#[cfg(test)]
mod world;
