ghost use Rattle.std.specs.Prelude.{◌≡◌, ℕ, ◌+◌, ◌^◌, ◌<◌, ◌≤◌, true, length, Some, None};
ghost use Rattle.pool.specs.Memory.{start_at, run_at};
ghost use Rattle.pool.specs.Finding.{lowest_free, find_run, unused, Lowest, LowestNode};
ghost use Rattle.pool.specs.Seen.{memory_of};

use crate::pool::Pool;

impl Pool<'_> {
    // The lowest node that is not in use.
    pub fn lowest_free(&self) -> Option<u8>
        requires { length self.now.nodes.now ≤ 256 }
        ensures value { result ≡ lowest_free self.now.nodes.now 0 }
        ensures lowest { LowestNode self.now.nodes.now result }
    {
        // the cast loses nothing, since there are at most 256 nodes
        self.nodes
            .iter()
            .position(|node| node.count == 0)
            .map(|i| i as u8)
    }

    // Where the first node ends that has one of the n words from `at` on.
    fn blocked(&self, at: usize, n: usize) -> Option<usize>
        requires { at + n < 2 ^ 64 }
        ensures { elim result [ None ↦ unused self.now.nodes.now at n ≡ true | Some e ↦ (at < e) × (e < 2 ^ 17) × (0 < n) × ((k : ℕ) × (start_at self.now.nodes.now k < at + n) × (0 < run_at self.now.nodes.now k) × (e ≡ start_at self.now.nodes.now k + run_at self.now.nodes.now k)) ] }
    {
        self.nodes
            .iter()
            .map(|node| node.words())
            .find(|words| at.max(words.start) < words.end.min(at + n))
            .map(|words| words.end)
    }

    // The lowest start of n unused words in a row. Not inlined: the search goes over all nodes again and again, and in a
    // larger function it lacks a register.
    #[inline(never)]
    pub fn find_run(&self, n: u16) -> Option<u16>
        requires { length self.now.words.now ≤ 65535 }
        ensures value { result ≡ find_run (memory_of self.now) n }
        ensures lowest { Lowest (memory_of self.now) n result }
    {
        let n = n as usize;
        // no index is counted: the next start is where a node in the way ends; one that is found fits a u16. A `match`, since
        // both arms are short
        let limit = self.words.len();
        let mut at = 0;
        while at + n <= limit {
            match self.blocked(at, n) {
                None => return Some(at as u16),
                Some(end) => at = end,
            }
        }
        None
    }
}
