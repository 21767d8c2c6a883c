// A circuit's blocks as a series of padded messages: definitions and laws alone, no code.
#![tactic(auto)]
