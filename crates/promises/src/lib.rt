// The customer's demands and requests: a record for each, a field for each sentence, proved by citing. Laws only.
#![tactic(auto)]
