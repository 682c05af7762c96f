#![tactic(auto)]

// Document 01's numbered examples N1 to N16: the table is in specs/Table.antt, that each row holds in proofs/Shown.antt.
