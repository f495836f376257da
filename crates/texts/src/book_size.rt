// How many rows the tables of a book have. Reading gives these counts, and no part of the tables: of tables from which its result
// borrows no clause could say what they are after a refusal.
ghost use Rattle.std.specs.Prelude.{◌≡◌};
ghost use Rattle.texts.specs.Rows.{is_short};

#[derive(Clone, Copy, PartialEq, Eq, Debug)]
pub struct BookSize {
    pub rules: usize,
    pub wishes: usize,
    pub alternatives: usize,
}

impl BookSize {
    // Whether one of the tables has more rows than there is room for.
    pub(crate) fn is_above(self, room: BookSize) -> bool
        ensures { result ≡ is_short room self }
    {
        self.rules > room.rules
            || self.wishes > room.wishes
            || self.alternatives > room.alternatives
    }
}
