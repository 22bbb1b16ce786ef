#![tactic(auto)]

// Tables, no code: networks and slacks worked by hand, and what must be refused. See specs/ and proofs/.
