//! Tests of the table: its rules, closed tables, tables while supports come and go, and explained bounds.
#![tactic(auto)]

#[cfg(test)]
mod closure;
#[cfg(test)]
mod explained;
#[cfg(test)]
mod known;
#[cfg(test)]
mod rules;
#[cfg(test)]
mod table;
#[cfg(test)]
mod values;
