// Relaxation over two rows.
#![tactic(auto)]

pub mod relax;
pub mod round;
