// Words of 64 bits as sets of atoms: bit `a` says that atom `a` is in the set.
ghost use Rattle.std.specs.Prelude.{◌≡◌, ◌<◌, IfSome, MatchOption};
ghost use Rattle.literals.specs.Words.{HighestBit};

// The highest member of a word.
pub fn highest_bit(word: u64) -> Option<u8>
    ensures highest { MatchOption result (word ≡ 0) (λ h. HighestBit word h) }
    ensures below { IfSome result (λ h. h < 64) }
{
    if word == 0 {
        None
    } else {
        Some(63 - word.leading_zeros() as u8)
    }
}
