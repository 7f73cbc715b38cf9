// All that is kept of a lowered module.
ghost use Rattle.layout.specs.Layout.{Long};
ghost use Rattle.nameres.specs.Loaded.{KeepsAll};

use crate::resolution::compute_name_resolution;
use kept::set_spent;
use scopes::compute_scopes;

// name_resolution: scopes, answers and references; nothing of the change room is spent.
pub fn keep_module(store: &mut [u8])
    requires { Long store.old }
    ensures { KeepsAll store.old store.new }
{
    compute_scopes(store);
    compute_name_resolution(store);
    set_spent(store, 0);
}
