// What the calls answer on a payload that was written, and what is written of a record that was read (document 02, One).
#![tactic(auto)]
