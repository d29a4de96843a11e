#![tactic(auto)]
// What a reply says: see specs/.
