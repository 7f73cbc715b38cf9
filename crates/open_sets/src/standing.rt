// Where an entry stands in the run: its set decides, then its class, then its key.
ghost use Rattle.std.specs.Prelude.{◌≡◌};
ghost use Rattle.words.specs.Order.{order};
ghost use Rattle.layout.specs.Layout.{Long};
ghost use Rattle.open_sets.specs.Run.{standing_with, Stands};

use crate::entry::{Entry, SetId};
use layout::tables::ABSENT;
use module::TextId;
use std::cmp::Ordering;
use texts::compare_texts;

// Statics come first, then sources, then dynamics.
#[derive(Clone, Copy, PartialEq, Eq, PartialOrd, Ord)]
pub enum Class {
    Static,
    Source,
    Dynamic,
}

#[derive(Clone, Copy)]
pub struct Standing {
    pub set: SetId,
    pub class: Class,
    pub key: TextId,
}

// Sources and dynamics have no key.
#[tactic(auto, using(layout::proofs::Frames::text_absent), unfolding(crate::specs::Run::standing_with, crate::specs::Ranks::standing, crate::specs::Ranks::class_of, crate::specs::Ranks::key_of, crate::specs::Entries::entry_with))]
pub fn standing_of(e: Entry) -> Standing
    ensures { Stands result e }
{
    match e {
        Entry::Static(set, key, _, _, _) => Standing {
            set,
            class: Class::Static,
            key,
        },
        Entry::Source(set, _) => Standing {
            set,
            class: Class::Source,
            key: TextId(ABSENT),
        },
        Entry::Dynamic(set, _, _) => Standing {
            set,
            class: Class::Dynamic,
            key: TextId(ABSENT),
        },
    }
}

// The keys are texts, which are compared last and only where set and class leave it open.
#[tactic(auto, using(crate::proofs::RunReads::standings_compared))]
pub fn compare_standings(store: &[u8], x: Standing, y: Standing) -> Ordering
    requires { Long store.now }
    ensures { result ≡ order (standing_with store.now x) (standing_with store.now y) }
{
    x.set
        .cmp(&y.set)
        .then(x.class.cmp(&y.class))
        .then_with(|| compare_texts(store, x.key, y.key))
}
