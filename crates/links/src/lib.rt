// Links between nodes in lent words: a stack's push, a ring's unlink, and clearing.
#![tactic(auto)]

ghost use Rattle.std.specs.Prelude.{◌≡◌, ◌+◌, ◌≤◌, ◌<◌, length, get_or, set};
ghost use Rattle.links.specs.Words.{word, Cleared};

// Makes so many words from a place on 0.
pub fn clear(words: &mut [u32], at: usize, count: usize)
    requires { at + count ≤ length words.old }
    ensures { Cleared at count words.old words.new }
{
    words[at..at + count].fill(0);
}

// A node on top of a stack: its cell takes what the head held, and the head takes the node.
pub fn push_on(words: &mut [u32], head: usize, cell: usize, node: u32)
    requires { (head < length words.old) × (cell < length words.old) }
    ensures { words.new ≡ set (set words.old cell (get_or words.old head 0)) head node }
{
    words[cell] = words[head];
    words[head] = node;
}

// A node is passed by: the node before it and the one after it are joined.
pub fn unlink(words: &mut [u32], next: usize, prev: usize, node: usize)
    requires node_in_bounds { (next + node < length words.old) × (prev + node < length words.old) }
    requires beside_in_bounds { (next + word words.old prev node < length words.old) × (prev + word words.old next node < length words.old) }
    ensures { words.new ≡ set (set words.old (next + word words.old prev node) (word words.old next node)) (prev + word words.old next node) (word words.old prev node) }
{
    let after = words[next + node];
    let before = words[prev + node];
    words[next + before as usize] = after;
    words[prev + after as usize] = before;
}
