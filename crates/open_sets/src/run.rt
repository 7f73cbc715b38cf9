// The run: the numbers of all entries in the order of their sets, classes and keys, of equal ones the
// earlier first. It is searched by halving.
ghost use Rattle.std.specs.Prelude.{◌≡◌, ◌≤◌, get_or};
ghost use Rattle.words.specs.Order.{order};
ghost use Rattle.spec.specs.State.{source};
ghost use Rattle.spec.specs.Merge as merge;
ghost use Rattle.layout.specs.Layout.{entry_limit, Long};
ghost use Rattle.layout.specs.Texts.{text_in};
ghost use Rattle.layout.specs.States.{entries_of, state_of, order_of};
ghost use Rattle.open_sets.specs.Ranks.{standing, InOrder, segment};
ghost use Rattle.open_sets.specs.Run.{standing_with, stops, Place, maybe_entry_of, NumberInRun, found_at, run_from, NextInRun};

use crate::entries::{entry_at, entry_count};
use crate::entry::{Entry, SetId};
use crate::standing::{Class, Standing, compare_standings, standing_of};
use layout::tables::{ABSENT, RUN};
use module::TextId;
use std::cmp::Ordering;
use words::get32;

// The number of the entry at the place j, if the run goes so far.
#[tactic(auto, using(crate::proofs::RunReads::number_here), unfolding(crate::specs::Run::NumberInRun))]
fn in_run(store: &[u8], j: u32) -> Option<u32>
    requires { Long store.now }
    ensures { NumberInRun store.now j result }
{
    if j < entry_count(store) {
        return Some(get32(store, RUN + 4 * j as usize));
    }
    None
}

// How the entry i stands to p.
#[tactic(auto, using(crate::proofs::RunReads::compared))]
fn compare_entry(store: &[u8], i: u32, p: Standing) -> Ordering
    requires { Long store.now }
    ensures { result ≡ order (standing (get_or (entries_of store.now) i (source 0 0))) (standing_with store.now p) }
{
    compare_standings(store, standing_of(entry_at(store, i)), p)
}

// Whether the search below stops at an entry that compares so. The bool turns one comparison: a closure in its place
// would say the same in more words.
#[tactic(auto, unfolding(crate::specs::Run::stops))]
fn stops(o: Ordering, past: bool) -> bool
    ensures { result ≡ stops past o }
{
    if past { o.is_gt() } else { o.is_ge() }
}

// The first place whose entry stands after p; or, if `past` is false, not before p.
pub fn place(store: &[u8], p: Standing, past: bool) -> u32
    requires { Long store.now }
    ensures { Place past p store.now result }
{
    let end = RUN + 4 * entry_count(store) as usize;
    let (numbers, _) = store[RUN..end].as_chunks::<4>();
    let q = numbers.partition_point(|number| {
        let o = compare_entry(store, u32::from_le_bytes(*number), p);
        !stops(o, past)
    });
    q as u32
}

// The entry at the place j, if it stands where p does.
#[tactic(auto, unfolding(crate::specs::Run::maybe_entry_of, crate::specs::Run::found_at, crate::specs::Run::NumberInRun))]
fn found_at(store: &[u8], j: u32, p: Standing) -> Option<u32>
    requires { Long store.now }
    ensures { maybe_entry_of result ≡ found_at store.now j p }
{
    let i = in_run(store, j)?;
    if compare_entry(store, i, p).is_eq() {
        return Some(i);
    }
    None
}

// The number of the entry that has the key in the set.
#[tactic(auto, using(crate::proofs::RunFinds::finds))]
pub fn find(store: &[u8], s: SetId, key: TextId) -> Option<u32>
    requires { Long store.now }
    ensures { InOrder (entries_of store.now) (order_of store.now) → maybe_entry_of result ≡ merge.find s.0 (text_in store.now key.0) (state_of store.now) }
{
    let p = Standing {
        set: s,
        class: Class::Static,
        key,
    };
    let j = place(store, p, false);
    found_at(store, j, p)
}

// Where the entries of a set begin. Nothing of a set stands before a static with the empty key.
pub fn first_of(store: &[u8], s: SetId) -> u32
    requires { Long store.now }
    ensures { (InOrder (entries_of store.now) (order_of store.now) → run_from s.0 (entries_of store.now) (order_of store.now) result ≡ segment s.0 (entries_of store.now)) × (result ≤ entry_limit) }
{
    let p = Standing {
        set: s,
        class: Class::Static,
        key: TextId(ABSENT),
    };
    place(store, p, false)
}

// The entry at the place j, if it is one of the set.
#[tactic(auto, using(crate::proofs::RunSets::next_past, crate::proofs::RunSets::next_other, crate::proofs::RunSets::next_here), unfolding(crate::specs::Run::NumberInRun))]
pub fn entry_of(store: &[u8], s: SetId, j: u32) -> Option<Entry>
    requires { Long store.now }
    ensures { NextInRun store.now s.0 j result }
{
    let e = entry_at(store, in_run(store, j)?);
    let p = standing_of(e);
    if p.set == s {
        return Some(e);
    }
    None
}
