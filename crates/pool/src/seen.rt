ghost use Rattle.std.specs.Prelude.{◌≡◌, ◌+◌, ◌<◌, ◌≤◌, length};
ghost use Rattle.pool.specs.Memory.{empty_memory, start_at, run_at, run_of};
ghost use Rattle.pool.specs.Seen.{memory_of, nodes_used, words_used};

use crate::node::Node;
use crate::pool::{NODES, Pool, WORDS};

impl<'a> Pool<'a> {
    // A pool over any lent memory, with nothing in use.
    pub fn new(nodes: &'a mut [Node; NODES], words: &'a mut [u32; WORDS]) -> Pool<'a>
        ensures { memory_of result ≡ empty_memory }
    {
        nodes.fill(Node::FREE);
        words.fill(0);
        Pool { nodes, words }
    }

    // The run of words that a node has, as it lies there, and where it starts.
    pub fn read(&self, n: u8) -> (u16, &[u32])
        requires inside { n < length self.now.nodes.now }
        requires within { start_at self.now.nodes.now n + run_at self.now.nodes.now n ≤ length self.now.words.now }
        ensures place { result.0 ≡ start_at self.now.nodes.now n }
        ensures words { result.1.now ≡ run_of (memory_of self.now) n }
    {
        let node = self.nodes[n as usize];
        (node.start, &self.words[node.words()])
    }

    // The nodes in use.
    pub fn nodes_used(&self) -> usize
        ensures { result ≡ nodes_used self.now.nodes.now }
    {
        self.nodes.iter().filter(|node| node.count != 0).count()
    }

    // The words in use.
    pub fn words_used(&self) -> usize
        requires { length self.now.nodes.now ≤ 65536 }
        ensures { result ≡ words_used self.now.nodes.now }
    {
        self.nodes.iter().map(|node| node.run as usize).sum()
    }
}
