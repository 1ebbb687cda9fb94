// The machine over numbers walks as document 01 does: nothing here runs.
#![tactic(auto)]
