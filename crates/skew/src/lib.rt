// Clock skew scheduling: the module's two public functions. Their contracts speak of the paper alone; the theorems about them are in proofs/.
#![tactic(auto)]

pub mod question;
pub mod schedule;
