// Whether some text gives the rows of tables, as far as the rows themselves tell.
ghost use Rattle.std.specs.Prelude.{◌≡◌, map, nat_lt};
ghost use Rattle.std.specs.List.{list_all};
ghost use Rattle.texts.specs.Writing.{rising, orderly};

use tables::{AlternativeRow, Row, WishRow};

// Whether each row makes a record.
pub(crate) fn all_make_records<R: Row>(rows: &[R]) -> bool
    ensures { result ≡ list_all R.makes rows.now }
{
    rows.iter().all(|row| row.makes_record())
}

// Whether wishes stand in the order of their ranks.
fn ranks_rise(wishes: &[WishRow]) -> bool
    ensures { result ≡ rising 0 (map (λ w. w.rank) wishes.now) }
{
    wishes.is_sorted_by_key(|wish| wish.rank)
}

// Whether alternatives stand in the order of their wishes.
fn owners_rise(alternatives: &[AlternativeRow]) -> bool
    ensures { result ≡ rising 0 (map (λ a. a.wish) alternatives.now) }
{
    alternatives.is_sorted_by_key(|alternative| alternative.wish)
}

// Whether each alternative is of one of so many wishes.
fn owners_exist(alternatives: &[AlternativeRow], wishes: usize) -> bool
    ensures { result ≡ list_all (λ a. nat_lt a.wish wishes) alternatives.now }
{
    alternatives
        .iter()
        .all(|alternative| alternative.wish < wishes)
}

// Whether wishes stand in the order of their ranks, and alternatives in that of their wishes, none without its wish.
pub(crate) fn are_orderly(wishes: &[WishRow], alternatives: &[AlternativeRow]) -> bool
    ensures { result ≡ orderly wishes.now alternatives.now }
{
    ranks_rise(wishes) && owners_rise(alternatives) && owners_exist(alternatives, wishes.len())
}
