// Lists of outputs in fixed memory.
ghost use Rattle.std.specs.Prelude.{◌≡◌, ◌≤◌, [], ◌∷◌, ◌++◌, length, if◌then◌else◌, nat_lt};
ghost use Rattle.std.specs.Result.{is_ok};
ghost use Rattle.settings.specs.Values.{listed};

use super::{Entries, Entry, ListFull, MOST_ENTRIES};

impl Entries {
    pub fn new() -> Entries
        ensures { listed result ≡ [] }
    {
        let none = Entry {
            identifier: 0,
            frequency: 0,
        };
        Entries {
            list: [none; MOST_ENTRIES],
            count: 0,
        }
    }

    // One more entry at the end; if there are 32, nothing changes.
    pub fn push(&mut self, entry: Entry) -> Result<(), ListFull>
        ensures is { is_ok result ≡ nat_lt (length (listed self.old)) 32 }
        ensures after { listed self.new ≡ (if is_ok result then listed self.old ++ entry ∷ [] else listed self.old) }
    {
        if self.count == MOST_ENTRIES {
            return Err(ListFull);
        }
        self.list[self.count] = entry;
        self.count += 1;
        Ok(())
    }

    pub fn as_slice(&self) -> &[Entry]
        ensures is { result.now ≡ listed self.now }
        ensures few { length result.now ≤ 32 }
    {
        &self.list[0..self.count]
    }
}
