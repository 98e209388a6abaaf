ghost use Rattle.std.specs.Prelude.{◌≡◌, ℕ, ◌<◌, ◌⊎◌, IfSome, replicate, slice_index_or, slice_set};

// What is kept of a few nodes, each beside its node, in the order in which they came. As many as can be asked for of a problem that is
// read: each has at least three parts of its own and is one of the two parts of a node that uses a variable, so there is one for at least
// four of 256 parts. An array and no `Vec`: evaluation may not run out of memory.
#[derive(Drop)]
pub(crate) struct Few<T> {
    pub(crate) entries: [Option<Entry<T>>; 64],
}

// What is kept of a node.
#[derive(Clone, Copy)]
pub(crate) struct Entry<T> {
    pub(crate) node: usize,
    pub(crate) item: T,
}

impl<T: Copy> Few<T> {
    // Nothing of any node.
    pub(crate) fn nothing() -> Few<T>
        ensures { result.entries ≡ replicate 64 None }
    {
        Few {
            entries: [None; 64],
        }
    }

    // What is kept of a node.
    pub(crate) fn get(&self, node: usize) -> Option<&T>
        ensures { IfSome result (λ item. (k : ℕ) × (slice_index_or self.now.entries k None ≡ Some (record { node = node; item = item.now }))) }
    {
        let place = self.place(node)?;
        self.entries[place].as_ref().map(|entry| &entry.item)
    }

    // Keeps what is known of a node; where no place is left nothing alters, and it is worked out again.
    pub(crate) fn put(&mut self, node: usize, item: T)
        ensures { (self.new.entries ≡ self.old.entries) ⊎ ((k : ℕ) × (self.new.entries ≡ slice_set self.old.entries k (Some (record { node = node; item = item })))) }
    {
        if let Some(place) = self.place(node) {
            self.entries[place] = Some(Entry { node, item });
        }
    }

    // The place of a node: where it is kept, or else the first that is free.
    fn place(&self, node: usize) -> Option<usize>
        ensures { IfSome result (λ k. (k < 64) × IfSome (slice_index_or self.now.entries k None) (λ entry. entry.node ≡ node)) }
    {
        self.entries.iter().position(|entry| entry.as_ref().is_none_or(|entry| entry.node == node))
    }
}
