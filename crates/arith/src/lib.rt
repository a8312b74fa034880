// Total arithmetic on machine numbers: each function gives what its definition on natural numbers gives, at every input.
#![tactic(auto)]

pub mod choice; // choice.rt: picking by a test
pub mod numbers; // numbers.rt: minimum, quotient and remainder
pub mod powers; // powers.rt: logarithms of powers of two
