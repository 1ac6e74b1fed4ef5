// Document 01's worked examples P1 to P10: one table and one statement, in specs/. No code.
#![tactic(auto)]
