ghost use Rattle.std.specs.Prelude.{◌≡◌, ℕ, ◌<◌, ◌≤◌, true, false, [], length, Decides, slice_index_or};
ghost use Rattle.trace.specs.Tables.{most_places, holds, Wide, BlankFrom, Empty, NoneOutside};

// The most places of a trace.
pub const MOST_PLACES: usize = 768;

// The most states of a trace.
pub const MOST_STATES: usize = 8;

// For each state, which places are held. Arrays and no `Vec`: to read and to write a record may not run out of memory.
pub type Table = [[bool; MOST_PLACES]; MOST_STATES];

// The table in which nothing is held.
pub fn blank() -> Table
    ensures nothing { (s p : ℕ) → holds result s p ≡ false }
    ensures rows { BlankFrom 0 result }
    ensures tall { length result ≡ 8 }
    ensures wide { Wide result }
{
    filled(false)
}

// The table in which all is held, or nothing: tried in `blank` alone, and the search does not prove facts of eight literal rows.
fn filled(value: bool) -> Table
    ensures nothing { value ≡ false → (s p : ℕ) → holds result s p ≡ false }
    ensures rows { value ≡ false → BlankFrom 0 result }
    ensures tall { length result ≡ 8 }
    ensures wide { Wide result }
{
    [[value; MOST_PLACES]; MOST_STATES]
}

// Whether a row holds no place from `from` on.
fn empty_from(row: &[bool; MOST_PLACES], from: usize) -> bool
    ensures value { Decides result (Empty row.now from) }
    ensures wide { length row.now ≡ most_places }
{
    !row.iter().skip(from).any(|held| *held)
}

// Whether nothing is held outside the counts.
#[tactic(auto, using(std::proofs::lemmas::List::get_or_past))]
pub(crate) fn none_outside(held: &Table, places: usize, states: usize) -> bool
    ensures none { result ≡ true → NoneOutside places states held.now }
    ensures all { NoneOutside places states held.now → result ≡ true }
    ensures wide { result ≡ true → Wide held.now }
{
    held.iter().enumerate().all(|(state, row)| empty_from(
        row,
        if state < states { places } else { 0 },
    ))
}
