//! What no worked row can say: calls that the program does not make itself, tables of forms, what is
//! asked of a regression once more, a flattening, a long chain of steps, texts of targets, an outline by
//! itself, calls of the outside, and what an account of a plan is made of, byte for byte.
#![tactic(auto)]

#[cfg(test)]
mod accounts;
#[cfg(test)]
mod flattened;
#[cfg(test)]
mod forms;
#[cfg(test)]
mod judged;
#[cfg(test)]
mod lists;
#[cfg(test)]
mod monitored;
#[cfg(test)]
mod outlines;
#[cfg(test)]
mod outside;
#[cfg(test)]
mod reached;
#[cfg(test)]
mod regressions;
#[cfg(test)]
mod scenes;
#[cfg(test)]
mod sources;
#[cfg(test)]
mod written;
