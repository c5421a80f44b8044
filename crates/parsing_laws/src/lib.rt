// The reader is the grammar, and every UTC text that is written reads back. Laws only.
#![tactic(auto)]
