// The file that an input of the writer means: definitions and laws.
#![tactic(auto)]
