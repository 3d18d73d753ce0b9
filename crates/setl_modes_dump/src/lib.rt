//! The texts of values by their modes over bases, and the lines of the dump, as definitions. No code that runs.
#![tactic(auto)]
