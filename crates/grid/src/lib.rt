// What a slot's grid is and where its points stand in it: definitions, and laws from the law of the map. No code.
#![tactic(auto)]
