//! Tests of values and their writers, of values and documents that are read back, and of the examples in the documents. There is
//! nothing else here.
#![tactic(auto)]

#[cfg(test)]
mod tests;
