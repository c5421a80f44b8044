// What a standby bill means, to the cent. Laws only.
#![tactic(auto)]
