//! The pen: an output buffer with an encoding, a cursor and a limit.
#![tactic(auto)]

mod counting;
mod encoded;
mod outlet;
mod pen;
mod taken;

pub use pen::{Indicator, Pen};
