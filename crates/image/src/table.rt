// The table of contents: each entry is held against what it must be.
ghost use Rattle.std.specs.Prelude.{ℕ, ◌+◌, ◌*◌, ◌≤◌, ◌<◌, length};
ghost use Rattle.image.specs.Entries.{entry_at, StateOf, Reached, WalkedContents};

use crate::numbers::{four, two};
use refusals::Refusal;

// What is known after some entries, each of them right: which places are present, and where the next body begins.
#[derive(Clone, Copy)]
pub(crate) struct Table {
    pub(crate) places: [bool; 129],
    pub(crate) next: usize,
}

// Whether entry t says that its column is present, where the next body would begin at `next`.
fn state_of(image: &[u8], t: usize, next: usize) -> Result<bool, Refusal>
    requires { entry_at (t + 1) ≤ length image.now }
    ensures { StateOf image.now t next result }
{
    let at = 8 + 8 * t;
    if two(image, at) != t || image[at + 3] != 0 {
        return Err(Refusal::Malformed);
    }
    let offset = four(image, at + 4);
    match image[at + 2] {
        1 if offset == next => Ok(true),
        0 if offset == 0 => Ok(false),
        _ => Err(Refusal::Malformed),
    }
}

impl Table {
    // What was known, and then entry t.
    fn entered(self, image: &[u8], t: usize, column: usize) -> Result<Self, Refusal>
        requires { (entry_at (t + 1) ≤ length image.now) × (t < 129) × (self.next + column < 4294967296) }
        ensures { (start : ℕ) → Reached image.now start column t self → WalkedContents image.now start column (t + 1) result }
    {
        let there = state_of(image, t, self.next)?;
        if !there {
            return Ok(self);
        }
        let mut places = self.places;
        places[t] = true;
        Ok(Self {
            places,
            next: self.next + column,
        })
    }

    // What the entries of so many columns say, where a column has so many bytes.
    pub(crate) fn of(image: &[u8], columns: usize, column: usize) -> Result<Self, Refusal>
        requires { (entry_at columns ≤ length image.now) × (columns ≤ 129) × (column ≤ 516096) }
        ensures { WalkedContents image.now (entry_at columns) column columns result }
    {
        let mut table = Self {
            places: [false; 129],
            next: 8 + 8 * columns,
        };
        // t is the column's number, by which its entry is found and which the entry has to say: no iterator is plainer.
        for t in 0..columns {
            table = table.entered(image, t, column)?;
        }
        Ok(table)
    }
}
