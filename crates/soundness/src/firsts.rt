// Tables whose rows say where their lists begin. Where the firsts ascend, the lists of all rows are no
// longer together than the last one's end, so that a check of every list goes over each item once.
ghost use Rattle.std.specs.Prelude.{◌≡◌, ◌+◌, ◌*◌, ◌≤◌, length};
ghost use Rattle.words.specs.Words.{word};
ghost use Rattle.soundness.specs.Sound.{ascends};

use words::get32;

// The firsts of n rows, which stand from `at` on with `stride` bytes from one to the next, and after
// them the end of the last list.
pub fn firsts_ascend(store: &[u8], at: usize, stride: usize, n: u32, limit: u32) -> bool
    requires { at + stride * n + 4 ≤ length store.now }
    ensures { result ≡ ascends (λ i. word store.now (at + stride * i)) n limit }
{
    let mut last = get32(store, at);
    if last != 0 {
        return false;
    }
    for i in 0..n {
        let next = get32(store, at + stride * (i as usize + 1));
        if next < last {
            return false;
        }
        last = next;
    }
    last <= limit
}
