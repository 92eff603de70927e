#![tactic(auto)]

// The customer's demands, stated as theorems about the definitions that the contracts cite. Start with specs/Demands.antt; no proof is needed to read it.
