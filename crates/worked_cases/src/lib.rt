// The customer's worked cases. The sixteen starred ones are one table under one theorem. Laws only.
#![tactic(auto)]
