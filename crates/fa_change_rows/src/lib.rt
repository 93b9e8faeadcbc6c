//! Worked values of the definitions of changed forests: rows in proofs/, one subject a file, that fail where a
//! definition is wrong.
#![tactic(auto)]
