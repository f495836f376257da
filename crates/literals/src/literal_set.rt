// Sets of literals as pairs of words.
ghost use Rattle.std.specs.Prelude.{◌≡◌, ◌<◌, ◌≤◌, ◌↔◌, IsTrue};
ghost use Rattle.literals.specs.Sets.{In, ◌⊑◌, Disjoint, Consistent, common, size, Before, Single, named, Union, Shared, Difference, Differing, Added, Removed};
ghost use Rattle.literals.specs.Settling.{Highest, FirstDifference, SameLiterals, FirstDecides};
ghost use Rattle.literals.specs.Words.{Extensional, HighestDecides};

use crate::literal::Literal;
use crate::words::highest_bit;

// A set of literals: bit `a` of `plus` says that atom `a` is in it, bit `a` of `minus` that its strong negation is.
#[derive(Clone, Copy, PartialEq, Eq, PartialOrd, Ord, Debug)]
pub struct LiteralSet {
    pub plus: u64,
    pub minus: u64,
}

impl LiteralSet {
    pub const EMPTY: LiteralSet = LiteralSet { plus: 0, minus: 0 };

    pub const ALL: LiteralSet = LiteralSet {
        plus: u64::MAX,
        minus: u64::MAX,
    };

    // Whether the literal is in the set.
    pub fn has(self, literal: Literal) -> bool
        ensures { IsTrue result ↔ In self (named literal.code) }
    {
        LiteralSet::from(literal).is_subset(self)
    }

    // The set with one literal more, if it lacks it.
    pub fn with(self, literal: Literal) -> LiteralSet
        ensures { Added self (named literal.code) result }
    {
        self.union(LiteralSet::from(literal))
    }

    // The set without one literal, if it has it.
    pub fn without(self, literal: Literal) -> LiteralSet
        ensures { Removed self (named literal.code) result }
    {
        self.difference(LiteralSet::from(literal))
    }

    // Whether every literal of this set is in `other`.
    pub fn is_subset(self, other: LiteralSet) -> bool
        ensures { IsTrue result ↔ (self ⊑ other) }
    {
        self.plus & other.plus == self.plus && self.minus & other.minus == self.minus
    }

    // Whether no literal is in both sets.
    pub fn is_disjoint(self, other: LiteralSet) -> bool
        ensures { IsTrue result ↔ Disjoint self other }
    {
        self.plus & other.plus == 0 && self.minus & other.minus == 0
    }

    // Whether the set has no atom together with its strong negation.
    pub fn is_consistent(self) -> bool
        ensures { IsTrue result ↔ Consistent self }
    {
        self.plus & self.minus == 0
    }

    // Whether the sets are equal, as `==` tells.
    pub fn is_same(self, other: LiteralSet) -> bool
        ensures { IsTrue result ↔ (self ≡ other) }
    {
        self == other
    }

    // Whether this set comes before `other`, as `<` tells: by `plus` as a number, then by `minus`.
    pub fn is_before(self, other: LiteralSet) -> bool
        ensures { IsTrue result ↔ Before self other }
    {
        self < other
    }

    // The four operations that follow differ in an operator; a step on words that takes it would be longer than the four are.
    pub fn union(self, other: LiteralSet) -> LiteralSet
        ensures { Union self other result }
    {
        LiteralSet {
            plus: self.plus | other.plus,
            minus: self.minus | other.minus,
        }
    }

    pub fn intersection(self, other: LiteralSet) -> LiteralSet
        ensures { Shared self other result }
    {
        LiteralSet {
            plus: self.plus & other.plus,
            minus: self.minus & other.minus,
        }
    }

    pub fn difference(self, other: LiteralSet) -> LiteralSet
        ensures { Difference self other result }
    {
        LiteralSet {
            plus: self.plus & !other.plus,
            minus: self.minus & !other.minus,
        }
    }

    // The literals that are in one of the sets alone.
    pub fn symmetric_difference(self, other: LiteralSet) -> LiteralSet
        ensures { Differing self other result }
    {
        LiteralSet {
            plus: self.plus ^ other.plus,
            minus: self.minus ^ other.minus,
        }
    }

    // The strong negation of each literal.
    pub fn opposite(self) -> LiteralSet
        ensures { result ≡ record { plus = self.minus; minus = self.plus } }
    {
        LiteralSet {
            plus: self.minus,
            minus: self.plus,
        }
    }

    // How many literals the set has.
    pub fn len(self) -> u32
        ensures size { result ≡ size self }
        ensures bound { result ≤ 128 }
    {
        self.plus.count_ones() + self.minus.count_ones()
    }

    // How many literals are in both sets.
    #[tactic(auto, using(crate::proofs::SetLaws::common_size))]
    pub fn count_common(self, other: LiteralSet) -> u32
        ensures { result ≡ common self other }
    {
        self.intersection(other).len()
    }

    // The first literal of the set in the order in which a search settles them: atoms from the highest down, then strong
    // negations from the highest down.
    pub fn highest(self) -> Option<Literal>
        ensures { Highest self result }
    {
        match highest_bit(self.plus) {
            Some(atom) => Literal::new(2 * atom),
            None => Literal::new(2 * highest_bit(self.minus)? + 1),
        }
    }

    // The first literal, in the same order, in which the sets differ. It decides which set comes before the other. The last
    // four clauses are the laws that this stands on, for words of any width and for sets.
    pub fn first_difference(self, other: LiteralSet) -> Option<Literal>
        ensures found { FirstDifference self other result }
        ensures words { Extensional }
        ensures highest { HighestDecides }
        ensures sets { SameLiterals }
        ensures first { FirstDecides }
    {
        self.symmetric_difference(other).highest()
    }
}

// The set of one literal.
impl From<Literal> for LiteralSet {
    ghost from_gives = { λ literal set. Single (named literal.code) set };

    fn from(literal: Literal) -> LiteralSet {
        let code = literal.code();
        let bit = 1u64 << (code / 2);
        if code % 2 == 0 {
            LiteralSet {
                plus: bit,
                minus: 0,
            }
        } else {
            LiteralSet {
                plus: 0,
                minus: bit,
            }
        }
    }
}
