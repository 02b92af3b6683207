//! Tests of the calculus, and of the crates that compute with it alone.
#![tactic(auto)]

#[cfg(test)]
mod answers;
#[cfg(test)]
mod broken_statements;
#[cfg(test)]
mod change_bytes;
#[cfg(test)]
mod copies;
#[cfg(test)]
mod counts;
#[cfg(test)]
mod deep_aggregates;
#[cfg(test)]
mod deep_quals;
#[cfg(test)]
mod deep_requests;
#[cfg(test)]
mod deep_terms;
#[cfg(test)]
mod faults;
#[cfg(test)]
mod forged;
#[cfg(test)]
mod joined;
#[cfg(test)]
mod leaves;
#[cfg(test)]
mod memory_refused;
#[cfg(test)]
mod monitored;
#[cfg(test)]
mod pair_changes;
#[cfg(test)]
mod patterns;
#[cfg(test)]
mod permits;
#[cfg(test)]
mod pieces;
#[cfg(test)]
mod queries;
#[cfg(test)]
mod read_statements;
#[cfg(test)]
mod reading;
#[cfg(test)]
mod refused;
#[cfg(test)]
mod replies;
#[cfg(test)]
mod request_bytes;
#[cfg(test)]
mod requests;
#[cfg(test)]
mod retrieve;
#[cfg(test)]
mod round;
#[cfg(test)]
mod row_bytes;
#[cfg(test)]
mod rows;
#[cfg(test)]
mod shared;
#[cfg(test)]
mod spelled;
#[cfg(test)]
mod spellings;
#[cfg(test)]
mod statements;
#[cfg(test)]
mod table_lines;
#[cfg(test)]
mod texts;
#[cfg(test)]
mod tokens;
#[cfg(test)]
mod trees;
#[cfg(test)]
mod truths;
#[cfg(test)]
mod values;
#[cfg(test)]
mod view_queries;
#[cfg(test)]
mod words;
#[cfg(test)]
mod written;
#[cfg(test)]
mod wrong_trees;
