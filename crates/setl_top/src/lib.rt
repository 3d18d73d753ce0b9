//! The program as one call: `setl` does what the words of the command line ask for.
//!
//! `setl run FILE` runs a program, `setl check FILE` checks it, `setl code FILE` writes the listing of its code, `setl build
//! FILE` its code file, which `setl exec FILE` runs, and `setl advise FILE` declarations with which none of its runs ends for
//! a value that doesn't fit. `setl explain FILE` writes why a source is refused, with the place and in words, and `setl explain
//! --stop NAME` what a stop means. `setl debug FILE` follows a script, which it reads from the input, over the states of a
//! program's run, forth and back. With `--watch NAME` a run tells a watcher its events, which reports of them. `setl trial
//! SEED N` runs one fixed program on an input that is drawn. A source that is no program is refused, with the first reason by
//! length, tokens, syntax and nesting, and rules.
#![tactic(auto)]

mod advising;
mod building;
mod coding;
mod debugging;
mod explaining;
mod front;
mod generated;
mod laws;
mod listing;
mod load;
mod ready;
mod run;
mod stop;
mod tell;
mod top;
mod trial;
mod watching;

pub use laws::{
    advised_sources_fit, advises_exactly, builds_exactly, checks_exactly, code_files_run_alike,
    code_is_few, code_refused_exactly, completeness, debugs_exactly, each_program_has_one_listing,
    ends_exactly, every_accepted_run_ends, explains_exactly, faulty_words_read_nothing,
    first_fault_ends, lists_exactly, program_or_refusal, refused_exactly, trials_read_nothing,
    tries_exactly, words_exactly,
};
pub use setl_top_status::Status;
pub use top::setl;
