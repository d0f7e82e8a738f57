// What a change of the sizes does (document 02, Six): theorems over the calls, with the sizes as parameters.
#![tactic(auto)]
