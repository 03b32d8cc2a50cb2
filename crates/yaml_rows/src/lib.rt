//! Tests of types, pens, marks, scalars, emitters, dumps and scripts, and nothing else.
#![tactic(auto)]

#[cfg(test)]
mod tests;
