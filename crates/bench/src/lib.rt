// Cases A to K of document 01 as one table: specs/Table.antt has the cases, proofs/Result.antt the result.
#![tactic(auto)]
