// Which days leap, under every table that is taken, and what a day's length is. Laws only.
#![tactic(auto)]
