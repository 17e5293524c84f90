// Demand 3 of the library as C links it: a history of its calls, octets in and octets out. No function is declared here.

#![tactic(auto)]
