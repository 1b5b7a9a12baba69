ghost use Rattle.std.specs.Prelude.{◌≡◌, ◌+◌, ◌<◌, [], ◌∷◌, ◌++◌, length, drop, is_some, is_ok, if◌then◌else◌};
ghost use Rattle.queue.specs.Held.{entries, spare, waiting, room, numbered, Next, At};

use crate::store::{Full, Queue};

impl<'a, T: Copy> Queue<'a, T> {
    // A queue with no entries: all slots are spare.
    pub fn new(slots: &'a mut [T]) -> Queue<'a, T>
        ensures entries { entries result ≡ [] }
        ensures taken { result.taken ≡ 0 }
        ensures spare { spare result ≡ slots.old }
        ensures room { room result ≡ length slots.old }
    {
        Queue {
            slots,
            taken: 0,
            made: 0,
        }
    }

    // Puts an entry behind the others and answers its number, or refuses where no slot is spare.
    pub fn push(&mut self, entry: T) -> Result<usize, Full>
        ensures answer { result ≡ numbered self.old }
        ensures entries { entries self.new ≡ (if is_ok result then entries self.old ++ entry ∷ [] else entries self.old) }
        ensures taken { self.new.taken ≡ self.old.taken }
        ensures spare { spare self.new ≡ (if is_ok result then drop 1 (spare self.old) else spare self.old) }
        ensures room { room self.new ≡ room self.old }
    {
        let number = self.made;
        if number >= self.slots.len() {
            return Err(Full);
        }
        self.slots[number] = entry;
        self.made = number + 1;
        Ok(number)
    }

    // Takes the first waiting entry and answers it with its number, or none where nothing waits.
    pub fn next(&mut self) -> Option<(usize, T)>
        ensures answer { Next self.old result }
        ensures taken { self.new.taken ≡ self.old.taken + (if is_some result then 1 else 0) }
        ensures entries { entries self.new ≡ entries self.old }
        ensures spare { spare self.new ≡ spare self.old }
        ensures room { room self.new ≡ room self.old }
    {
        let number = self.taken;
        if number >= self.made {
            return None;
        }
        let entry = self.slots[number];
        self.taken = number + 1;
        Some((number, entry))
    }

    // The entry of a number, taken or not, or none where there is none yet.
    pub fn get(&self, number: usize) -> Option<T>
        ensures { At self.now number result }
    {
        self.entries().get(number).copied()
    }

    // All entries so far, taken ones too.
    pub fn entries(&self) -> &[T]
        ensures { result.now ≡ entries self.now }
    {
        &self.slots[..self.made]
    }

    // How many entries there are so far, taken ones too: the number of the next one.
    pub fn made(&self) -> usize
        ensures { result ≡ length (entries self.now) }
    {
        self.entries().len()
    }

    // How many entries there can be in all.
    pub fn room(&self) -> usize
        ensures { result ≡ room self.now }
    {
        self.slots.len()
    }

    // How many entries wait.
    pub fn len(&self) -> usize
        ensures { result ≡ length (waiting self.now) }
    {
        self.made - self.taken
    }
}
