//! Runs, as definitions: variables and what they hold, events, ends, the charge of turns, and runs of any machine over
//! a core of its own. The meaning of a program and the run of its code are both runs in this sense. No code that runs.
#![tactic(auto)]
