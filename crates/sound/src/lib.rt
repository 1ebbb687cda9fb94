// The definitions of document 01 are sound for the models of document 000: nothing here runs.
#![tactic(auto)]
