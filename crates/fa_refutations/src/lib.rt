//! What wrong bodies would answer, refuted by the clauses on phases, automata, pools and explorations: rows in proofs/,
//! one subject a file.
#![tactic(auto)]
