// Records: what valid rows make. The numbers of a record lie in their ranges, by its ghost field, so no invalid record can exist.
// A record has the fields of its row, and code reads them as fields: one generic type of valid rows would hide them behind a call.
ghost use Rattle.std.specs.Prelude.{◌≤◌};
ghost use Rattle.literals.specs.Sets.{size};

use literals::{Condition, Literal, LiteralSet};

// Of the head's literals at least `least` and at most `greatest` are in the set.
#[derive(Clone, Copy)]
pub struct Choice {
    pub least: u8,
    pub greatest: u8,
    pub head: LiteralSet,
    ghost sound: { (1 ≤ size head) × (least ≤ greatest) × (greatest ≤ size head) },
}

// What a rule gives where its body holds.
#[derive(Clone, Copy)]
pub enum Head {
    Plain(Literal),
    Constraint,
    Choice(Choice),
}

// A rule of a rule book.
#[derive(Clone, Copy)]
pub struct Rule {
    pub head: Head,
    pub body: Condition,
}

// A wish of a rank, 1 counting most, that applies where its body holds.
#[derive(Clone, Copy)]
pub struct Wish {
    pub rank: u8,
    pub body: Condition,
    ghost sound: { (1 ≤ rank) × (rank ≤ 16) },
}

// An alternative of the wish with the number `wish` in its table, from 0: of a level, 1 being best, it holds where its condition does.
#[derive(Clone, Copy)]
pub struct Alternative {
    pub wish: usize,
    pub level: u8,
    pub condition: Condition,
    ghost sound: { (1 ≤ level) × (level ≤ 8) },
}

// A penalty of a level, 1 counting most, that is due where its condition holds.
#[derive(Clone, Copy)]
pub struct Penalty {
    pub level: u8,
    pub condition: Condition,
    ghost sound: { (1 ≤ level) × (level ≤ 16) },
}
