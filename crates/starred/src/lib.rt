// The starred lines of the bench sheet, shown to hold of the definitions: theorems only, one table under one statement.
#![tactic(auto)]
