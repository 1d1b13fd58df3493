// The rows that document 01 marks for the check, and those of document 02 (R-2, R-3, R-5 and R-6), computed from the
// definitions: specs/Rows.antt. There is no code here.
#![tactic(auto)]
