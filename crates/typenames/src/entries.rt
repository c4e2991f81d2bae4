// The entries of a list of names, one after the other.
ghost use Rattle.std.specs.Prelude.{◌≡◌};
ghost use Rattle.std.specs.Iterator.{YieldsFirstRef, item_count};
ghost use Rattle.typenames.specs.NameList.{entries};
ghost use Rattle.typenames.specs.internal.Entries.{entries_left};

use lexer::Class;

// What is left of a list, nothing after its last entry.
#[derive(Drop)]
pub(crate) struct Entries<'a> {
    rest: Option<&'a [u8]>,
}

impl<'a> Entries<'a> {
    // The entries of a list, which are separated by one byte 10. An empty list has none.
    pub(crate) fn of(list: &'a [u8]) -> Entries<'a>
        ensures { entries_left result ≡ entries list.now }
    {
        if list.is_empty() {
            return Entries { rest: None };
        }
        Entries { rest: Some(list) }
    }
}

impl<'a> Iterator for Entries<'a> {
    type Item = &'a [u8];

    ghost next_gives = { YieldsFirstRef entries_left };

    ghost remaining = { item_count entries_left };

    fn next(&mut self) -> Option<&'a [u8]> {
        let list = self.rest?;
        let end = lexer::run_end(list, 0, Class::Line);
        let (entry, after) = list.split_at(end);
        self.rest = after.get(1..);
        Some(entry)
    }
}
