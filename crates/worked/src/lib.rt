// Worked lines of the working delay, the template query, Network Data, diagnostic payloads, pairing and addresses as text, computed from the definitions: theorems only.
#![tactic(auto)]
