// The text of a sheet's tables: definitions and laws alone.
#![tactic(auto)]
