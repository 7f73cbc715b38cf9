// Scopes: ModuleScopes::new of nameres.rs. From the module in a store to its scopes, the names that are
// entered in each, and the scope of every expression that is walked.
//
// It knows no byte offset: the module is read as expressions, items and names, and scopes are opened in
// steps. A step tests its limits; that a lowered module meets none of them is proved.
#![tactic(auto)]

mod enters;
mod picks;
mod traverse;
mod whole;

pub use whole::compute_scopes;
