//! Tests of what comes in: sources, sinks and lines, the words of a line, numbers and ids, and evidence documents.
#![tactic(auto)]

#[cfg(test)]
mod cites;
#[cfg(test)]
mod devices;
#[cfg(test)]
mod documents_read;
#[cfg(test)]
mod documents_refused;
#[cfg(test)]
mod documents_written;
#[cfg(test)]
mod faults;
#[cfg(test)]
mod lines;
#[cfg(test)]
mod long_documents;
#[cfg(test)]
mod turns;
#[cfg(test)]
mod words;
