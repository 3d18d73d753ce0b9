//! Tests of the containers: each call of `setl_base`, `setl_local`, `setl_remote` and `setl_sparse`, as tables of
//! calls and their answers. There is no code here but tests.
#![tactic(auto)]

#[cfg(test)]
mod base;
#[cfg(test)]
mod local;
#[cfg(test)]
mod remote;
#[cfg(test)]
mod sparse;
