//! What wrong bodies would answer, refuted by the clauses on the checker, on control graphs and on the machine: rows in
//! proofs/, one subject a file.
#![tactic(auto)]
