// The definitions of the whole resolver. They stand in specs/, and there is no code here: every
// other crate's contracts are equations with these.
#![tactic(auto)]
