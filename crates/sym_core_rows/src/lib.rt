//! Worked values of the definitions of what an edge makes of a forest's members: rows in proofs/, one subject a file,
//! that fail where a definition is wrong.
#![tactic(auto)]
