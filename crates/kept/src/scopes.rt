// Scopes: of each its parent, and the names that are entered in it or its With; and the scope of every
// expression.
//
// A scope's names lie one after the other, from the first that its row gives to the next row's first.
// So the row after the last one says where the names of the next scope will begin, and those that wait
// for it are written there.
ghost use Rattle.std.specs.Prelude.{◌≡◌, [], ◌∷◌, ℕ, ◌+◌, ◌*◌, ◌-◌, ◌≤◌, ◌<◌, length, MatchOption};
ghost use Rattle.std.proofs.Math.Option.{none};
ghost use Rattle.std.proofs.Math.ListN.{get_elem?};
ghost use Rattle.words.specs.Words.{word, set_word};
ghost use Rattle.spec.specs.Scopes.{ScopeKind, definitions, with_expr};
ghost use Rattle.spec.specs.Answer.{scope_at, scope_of_expr};
ghost use Rattle.module.specs.Ids.{scope_of, expr_of, name_of};
ghost use Rattle.layout.specs.Layout.{scope_limit, scope_row, scope_count, scopes_at, Long};
ghost use Rattle.layout.specs.Rows.{cap, raised, set_all};
ghost use Rattle.layout.specs.Keeps.{scopes_in};
ghost use Rattle.kept.specs.Walks.{names_entered, with_of, scope_word, Walked, Emptied, Waits, try_open, try_place, try_root, waiting_names};

use crate::clearing::clear_rows;
use crate::limits::{in_use, listed};
use layout::tables::{
    ENTERED, EXPR_COUNT, EXPR_LIMIT, NAME_LIMIT, SCOPE_COUNT, SCOPE_LIMIT, SCOPE_ROW, SCOPES,
    USE_ROW, USES,
};
use layout::{counter, put_words};
use module::{Counter, ExprId, NameId, ScopeId};
use words::{get32, put32};

// How many names can be entered, as a place is.
const ENTERED_ROOM: usize = NAME_LIMIT as usize;

// ---- reading
// How long the list of scopes is. The readers of rows call `in_use` itself: they need its limit too.
#[tactic(auto, using(crate::proofs::ScopeReads::length_scopes))]
pub fn scope_count(store: &[u8]) -> u32
    requires { Long store.now }
    ensures { result ≡ length (scopes_in store.now).scopes }
{
    in_use(store, SCOPE_COUNT, SCOPE_LIMIT)
}

// The word k of a scope's row, and 0 where there is no such scope.
#[tactic(auto, using(crate::proofs::ScopeReads::word_in, crate::proofs::ScopeReads::word_out, crate::proofs::ScopeReads::below_cap, crate::proofs::ScopeReads::above_cap))]
fn scope_word(store: &[u8], s: ScopeId, k: usize) -> u32
    requires { Long store.now × (k ≤ 8) }
    ensures { result ≡ scope_word store.now s.0 k }
{
    if s.0 < in_use(store, SCOPE_COUNT, SCOPE_LIMIT) {
        get32(store, SCOPES + SCOPE_ROW * s.0 as usize + k)
    } else {
        0
    }
}

// Parent and With stand one too high in the row, so that 0 is none.
#[tactic(auto, using(crate::proofs::ScopeReads::parent_is, crate::proofs::ScopeReads::raised_none, crate::proofs::ScopeReads::raised_some), unfolding(module::specs::Ids::scope_of))]
pub fn scope_parent(store: &[u8], s: ScopeId) -> Option<ScopeId>
    requires { Long store.now }
    ensures { scope_of result ≡ (scope_at (scopes_in store.now).scopes s.0).parent }
{
    scope_word(store, s, 4).checked_sub(1).map(ScopeId)
}

#[tactic(auto, using(crate::proofs::ScopeReads::with_is, crate::proofs::ScopeReads::raised_none, crate::proofs::ScopeReads::raised_some), unfolding(module::specs::Ids::expr_of))]
pub fn scope_with(store: &[u8], s: ScopeId) -> Option<ExprId>
    requires { Long store.now }
    ensures { expr_of result ≡ with_of (scope_at (scopes_in store.now).scopes s.0).kind }
{
    scope_word(store, s, 8).checked_sub(1).map(ExprId)
}

// How many names are entered in a scope: none in that of a With.
#[tactic(auto, using(crate::proofs::ScopeReads::count_none, crate::proofs::ScopeReads::no_names, crate::proofs::ScopeReads::with_names, crate::proofs::ScopeReads::count_own, crate::proofs::ScopeReads::below_cap, crate::proofs::ScopeReads::above_cap))]
pub fn entered_count(store: &[u8], s: ScopeId) -> u32
    requires { Long store.now }
    ensures { result ≡ length (names_entered (scope_at (scopes_in store.now).scopes s.0).kind) }
{
    let i = s.0;
    if in_use(store, SCOPE_COUNT, SCOPE_LIMIT) <= i {
        return 0;
    }
    if get32(store, SCOPES + SCOPE_ROW * i as usize + 8) != 0 {
        return 0;
    }
    listed(
        store,
        SCOPES + SCOPE_ROW * i as usize,
        SCOPE_ROW,
        NAME_LIMIT,
    )
}

// The i-th of them, from 0 on.
#[tactic(auto, using(crate::proofs::ScopeReads::named, crate::proofs::ScopeReads::past_names, crate::proofs::ScopeReads::below_cap), unfolding(module::specs::Ids::name_of))]
pub fn entered_at(store: &[u8], s: ScopeId, i: u32) -> Option<NameId>
    requires { Long store.now }
    ensures { name_of result ≡ get_elem? (names_entered (scope_at (scopes_in store.now).scopes s.0).kind) i }
{
    if i < entered_count(store, s) {
        let from = in_use(store, SCOPES + SCOPE_ROW * s.0 as usize, NAME_LIMIT);
        Some(NameId(get32(store, ENTERED + 4 * (from as usize + i as usize))))
    } else {
        None
    }
}

// The scope that an expression stands in; none for one that was not walked.
#[tactic(auto, using(crate::proofs::ScopeReads::raised_none, crate::proofs::ScopeReads::raised_some, crate::proofs::ScopeReads::of_expr_in, crate::proofs::ScopeReads::of_expr_out, crate::proofs::ScopeReads::below_cap, crate::proofs::ScopeReads::above_cap), unfolding(module::specs::Ids::scope_of))]
pub fn scope_of(store: &[u8], e: ExprId) -> Option<ScopeId>
    requires { Long store.now }
    ensures { scope_of result ≡ scope_of_expr (scopes_in store.now) e.0 }
{
    let i = e.0;
    if i < in_use(store, EXPR_COUNT, EXPR_LIMIT) {
        get32(store, USES + USE_ROW * i as usize)
            .checked_sub(1)
            .map(ScopeId)
    } else {
        None
    }
}

// ---- writing
// No scope, and no expression in one: what a walk begins with.
pub fn clear_scopes(store: &mut [u8])
    requires { Long store.old }
    ensures { Emptied store.old store.new }
{
    let n = in_use(store, EXPR_COUNT, EXPR_LIMIT);
    clear_rows(store, USES, USE_ROW, n);
    put32(store, SCOPES, 0);
    put32(store, SCOPE_COUNT, 0);
}

// The row of the next scope, and one scope more. Parent and With are the words of the row, one too high or 0 for none.
// Where the scope's names begin stands there already, and `end` is where those of the one after it will.
fn put_scope(store: &mut [u8], count: Counter, parent: u32, source: u32, end: u32)
    requires { Long store.old × (count.used < scope_limit) }
    ensures { store.new ≡ set_word (set_all store.old (scopes_at + 4 + scope_row * count.used) (parent ∷ source ∷ end ∷ [])) scope_count (count.used + 1) }
{
    let next = count.next();
    put_words(
        store,
        SCOPES + 4 + SCOPE_ROW * count.used as usize,
        [parent, source, end],
    );
    put32(store, SCOPE_COUNT, next.used);
}

// The scope around everything: no parent, and no names.
pub fn open_root(store: &mut [u8])
    requires { Long store.old }
    ensures { Walked try_root store.old tt store.new }
{
    let count = counter(store, SCOPE_COUNT);
    if !count.has_room(SCOPE_LIMIT) {
        return;
    }
    let first = get32(store, SCOPES + SCOPE_ROW * count.used as usize);
    put_scope(store, count, 0, 0, first);
}

// The expression e stands in the scope s.
#[tactic(auto, using(crate::proofs::ScopeLaws::unplaced, crate::proofs::ScopeLaws::nothing_placed))]
pub fn place_expr(store: &mut [u8], e: ExprId, s: ScopeId)
    requires { Long store.old }
    ensures { Walked (try_place e.0 s.0) store.old tt store.new }
{
    let i = e.0;
    let scope = s.0;
    if SCOPE_LIMIT <= scope {
        return;
    }
    if in_use(store, EXPR_COUNT, EXPR_LIMIT) <= i {
        return;
    }
    put32(store, USES + USE_ROW * i as usize, scope + 1);
}

// The i-th name, from 0 on, of those that wait for the next scope.
pub fn enter_name(store: &mut [u8], i: u32, x: NameId)
    requires { Long store.old }
    ensures { Waits i x.0 store.old store.new }
{
    let n = in_use(store, SCOPE_COUNT, SCOPE_LIMIT);
    let at = get32(store, SCOPES + SCOPE_ROW * n as usize) as usize + i as usize;
    if ENTERED_ROOM <= at {
        return;
    }
    put32(store, ENTERED + 4 * at, x.0);
}

// How many scopes there are, where one more can be opened inside the scope parent.
#[tactic(auto, using(crate::proofs::ScopeLaws::room_count, crate::proofs::ScopeLaws::full_count, crate::proofs::ScopeLaws::scopes_full, crate::proofs::ScopeLaws::outer_unfit, module::proofs::CounterLaws::room_left))]
fn room_inside(store: &[u8], parent: ScopeId) -> Option<Counter>
    requires { Long store.now }
    ensures { MatchOption result ((k : ScopeKind) → Walked (try_open k parent.0) store.now scope_limit store.now) (λ count. (count.used ≡ cap (word store.now scope_count) scope_limit) × ((count.used < scope_limit) × (parent.0 < scope_limit))) }
{
    let count = counter(store, SCOPE_COUNT);
    if count.has_room(SCOPE_LIMIT) && parent.0 < SCOPE_LIMIT {
        Some(count)
    } else {
        None
    }
}

// A scope inside another, with the first n of the names that wait.
pub fn open_scope(store: &mut [u8], parent: ScopeId, n: u32) -> ScopeId
    requires { Long store.old }
    ensures { Walked (try_open (definitions (waiting_names store.old n)) parent.0) store.old result.0 store.new }
{
    let Some(count) = room_inside(store, parent) else {
        return ScopeId(SCOPE_LIMIT);
    };
    let first = get32(store, SCOPES + SCOPE_ROW * count.used as usize);
    if ENTERED_ROOM < first as usize + n as usize {
        return ScopeId(SCOPE_LIMIT);
    }
    put_scope(store, count, parent.0 + 1, 0, first + n);
    ScopeId(count.used)
}

// A scope inside another, for the body of the With e.
pub fn open_with(store: &mut [u8], parent: ScopeId, e: ExprId) -> ScopeId
    requires { Long store.old }
    ensures { Walked (try_open (with_expr e.0) parent.0) store.old result.0 store.new }
{
    let Some(count) = room_inside(store, parent) else {
        return ScopeId(SCOPE_LIMIT);
    };
    let source = e.0;
    if EXPR_LIMIT <= source {
        return ScopeId(SCOPE_LIMIT);
    }
    let first = get32(store, SCOPES + SCOPE_ROW * count.used as usize);
    put_scope(store, count, parent.0 + 1, source + 1, first);
    ScopeId(count.used)
}
