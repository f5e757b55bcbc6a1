// The known points of documents 01 and 02, as one theorem (proofs/Table.antt). The crate has no code.
#![tactic(auto)]
