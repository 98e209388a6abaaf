ghost use Rattle.std.specs.Prelude.{◌≡◌, [], length, MatchOption, MatchResult};
ghost use Rattle.stack.specs.Stacks.{entries, Pushed, NotPushed, Popped, Empty, TopIs};

use super::{Full, Stack};

impl<'a, T: Copy> Stack<'a, T> {
    // An empty stack over a slice, which stays as it is.
    pub fn new(items: &'a mut [T]) -> Self
        ensures empty { entries result ≡ [] }
        ensures lent { result.items.now ≡ items.old }
        ensures named { result.items.ghost_name ≡ items.entry.ghost_name }
    {
        Stack { items, count: 0 }
    }

    // How many entries it has.
    pub fn len(&self) -> usize
        ensures count { result ≡ self.now.count }
        ensures value { result ≡ length (entries self.now) }
    {
        self.as_slice().len()
    }

    // Puts an entry on top; a full stack does not alter.
    pub fn push(&mut self, entry: T) -> Result<(), Full>
        ensures value { MatchResult result (λ _. Pushed self.old entry self.new) (λ _. NotPushed self.old self.new) }
        ensures named { self.new.items.ghost_name ≡ self.old.items.ghost_name }
    {
        // By index: std says of a slice's `get_mut` what is there, and nothing of what the slice is after a write.
        if self.count >= self.items.len() {
            return Err(Full);
        }
        self.items[self.count] = entry;
        self.count += 1;
        Ok(())
    }

    // Takes the top off; none where it is empty. The slice stays as it is.
    pub fn pop(&mut self) -> Option<T>
        ensures value { MatchOption result (Empty self.old self.new) (λ x. Popped self.old x self.new) }
        ensures named { self.new.items.ghost_name ≡ self.old.items.ghost_name }
    {
        let at = self.count.checked_sub(1)?;
        self.count = at;
        Some(self.items[at])
    }

    // The top; none where it is empty.
    pub fn top(&self) -> Option<T>
        ensures { MatchOption result (entries self.now ≡ []) (λ x. TopIs self.now x) }
    {
        self.as_slice().last().copied()
    }

    // All entries, bottom first.
    pub fn as_slice(&self) -> &[T]
        ensures { result.now ≡ entries self.now }
    {
        &self.items[..self.count]
    }
}
