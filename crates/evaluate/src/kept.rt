ghost use Rattle.std.specs.Prelude.{◌≡◌, IfSome, replicate, slice_index_or, slice_set};
ghost use Rattle.tuples.specs.Tabled.{Tabled};
ghost use Rattle.tuples.specs.Packing.{packed_table};
ghost use Rattle.tuples.specs.declared.packed.Packed.{Packed as PackedSet};

use lasso::State;
use table::MOST_STATES;
use tuples::{Atoms, Packed, Tuples};

// The values of an expression in each state, of an arity: those of its first 4 × N tuples. Packed, since there are many of these on the
// stack; arrays and no `Vec`, since evaluation may not run out of memory.
#[derive(Clone, Copy)]
pub(crate) struct States<const N: usize> {
    pub(crate) arity: usize,
    pub(crate) values: [Packed<N>; MOST_STATES],
}

impl<const N: usize> States<N> {
    // The values in a state.
    pub(crate) fn tuples(&self, state: State, atoms: Atoms) -> Option<Tuples>
        ensures { IfSome result (λ t. (beyond : PackedSet N) → Tabled atoms.count self.now.arity (packed_table (slice_index_or self.now.values state.0 beyond)) t) }
    {
        self.values.get(state.0)?.tuples(self.arity, atoms)
    }
}

// What is kept of some nodes, by their numbers. An array and no `Vec`: evaluation may not run out of memory.
#[derive(Drop)]
pub(crate) struct Kept<T> {
    pub(crate) items: [Option<T>; 256],
}

impl<T: Copy> Kept<T> {
    // Nothing of any node.
    pub(crate) fn nothing() -> Kept<T>
        ensures { result.items ≡ replicate 256 None }
    {
        Kept { items: [None; 256] }
    }

    // What is kept of a node.
    pub(crate) fn get(&self, node: usize) -> Option<&T>
        ensures { IfSome result (λ item. slice_index_or self.now.items node None ≡ Some item.now) }
    {
        self.items.get(node)?.as_ref()
    }

    // Keeps what is known of a node; from node 256 on nothing alters.
    pub(crate) fn put(&mut self, node: usize, item: T)
        ensures { self.new.items ≡ slice_set self.old.items node (Some item) }
    {
        // By index: std says of a slice's `get_mut` what is there, and nothing of what the slice is after a write.
        if node < self.items.len() {
            self.items[node] = Some(item);
        }
    }
}
