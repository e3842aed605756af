//! Tests of what no table of cases can show: shelves and sinks that fail, real files and standard
//! output, and calls with ample memory. It stands on the crates whose calls it tests, and has no
//! function of its own.
#![tactic(auto)]

#[cfg(test)]
mod outside;
#[cfg(test)]
mod run;
