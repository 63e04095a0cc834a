// The spreadsheet file's round trip: theorems in specs/; this crate holds no code.
#![tactic(auto)]
