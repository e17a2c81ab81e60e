// A binary heap of keys, the least first, in the first places of a lent slice. A hole is moved, and keys are not swapped: each step
// stores one key.
#![tactic(auto)]

pub mod sifting; // the ways of a hole, up and down, and the least key, over places that are lent with the number of keys

ghost use Rattle.std.specs.Prelude.{◌≡◌, ◌+◌, ◌<◌, ◌≤◌, length, get_or, MatchOption};
ghost use Rattle.heap.specs.Heap.{IsHeap, Least, Pushed, Sunk, Popped};

// The first `len` of the lent places are the heap. The places behind them stay as they are.
#[derive(Drop)]
pub struct Heap<'a> {
    pub keys: &'a mut [u64],
    pub len: usize,
    pub ghost room: { len ≤ length keys.now },
    pub ghost is_heap: { IsHeap len keys.now },
}

impl<'a> Heap<'a> {
    ghost use Rattle.heap.specs.Lent.{SameRoom};

    // No key is in it yet.
    pub fn new(keys: &'a mut [u64]) -> Heap<'a>
        ensures same { result.keys.ghost_name ≡ keys.entry.ghost_name }
        ensures stays { result.keys.now ≡ keys.old }
        ensures none { result.len ≡ 0 }
    {
        Heap { keys, len: 0 }
    }

    // How many keys there is place for.
    pub fn capacity(&self) -> usize
        ensures { result ≡ length self.now.keys.now }
    {
        self.keys.len()
    }

    // The least key, if there is one. It stays in.
    pub fn peek(&self) -> Option<u64>
        ensures { MatchOption result (self.now.len ≡ 0) (λ key. Least self.now.len self.now.keys.now key × (0 < self.now.len)) }
    {
        if self.len == 0 {
            return None;
        }
        Some(self.keys[0])
    }

    // Puts a key in.
    pub fn push(&mut self, key: u64)
        requires { self.old.len < length self.old.keys.now }
        ensures room { SameRoom self.old self.new }
        ensures more { self.new.len ≡ self.old.len + 1 }
        ensures pushed { Pushed self.old.len key self.old.keys.now self.new.keys.now }
    {
        sifting::rise(self.keys, self.len, key);
        self.len += 1;
    }

    // Puts a key that is not below the least in the place of the least. Where the least is taken and another key comes in, this spares the
    // way up of the one that comes in.
    pub fn replace_least(&mut self, key: u64)
        requires { (0 < self.old.len) × (get_or self.old.keys.now 0 0 ≤ key) }
        ensures room { SameRoom self.old self.new }
        ensures as_many { self.new.len ≡ self.old.len }
        ensures sunk { Sunk self.old.len key self.old.keys.now self.new.keys.now }
    {
        sifting::sink(self.keys, self.len, key);
    }

    // Takes the least key out. The place that falls free is set to 0: search work is left zero.
    pub fn pop(&mut self) -> u64
        requires { 0 < self.old.len }
        ensures room { SameRoom self.old self.new }
        ensures less { self.new.len + 1 ≡ self.old.len }
        ensures popped { Popped self.old.len result self.old.keys.now self.new.keys.now }
    {
        self.len -= 1;
        sifting::take_least(self.keys, self.len + 1)
    }
}
