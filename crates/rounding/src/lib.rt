// The laws of rounding: what one float operation does to the exact value. The crate has no function: proofs/Lib.antt says which laws it has.
#![tactic(auto)]
