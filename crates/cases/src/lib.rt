#![tactic(auto)]

#[cfg(test)]
mod bound_tests;
#[cfg(test)]
mod check_tests;
#[cfg(test)]
mod example;
#[cfg(test)]
mod list_tests;
#[cfg(test)]
mod load_tests;
#[cfg(test)]
mod partial_tests;
#[cfg(test)]
mod parts;
#[cfg(test)]
mod places;
pub mod program;
#[cfg(test)]
mod same;
pub mod table;
