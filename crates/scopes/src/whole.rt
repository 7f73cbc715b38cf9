// The scopes of the module in a store.
ghost use Rattle.layout.specs.Layout.{Long};
ghost use Rattle.scopes.specs.Whole.{ScopesAll};

use crate::traverse::traverse_expr;
use kept::{clear_scopes, open_root};
use module::ScopeId;
use rows::entry;

// ModuleScopes::new: from the entry, in the root scope, the scope 0.
pub fn compute_scopes(store: &mut [u8])
    requires { Long store.old }
    ensures { ScopesAll store.old store.new }
{
    clear_scopes(store);
    open_root(store);
    let e = entry(store);
    traverse_expr(store, e, ScopeId(0));
}
