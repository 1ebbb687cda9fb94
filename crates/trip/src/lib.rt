// The laws of the request text: what is written reads back, and what reads is the text. Nothing here runs.
#![tactic(auto)]
