// The spreadsheet files of hours: theorems in specs/; this crate holds no code.
#![tactic(auto)]
