//! What stands at a place of a list, compared with what a step or a pass brings.
ghost use Rattle.std.specs.Prelude.{◌≡◌, ◌≢◌, ◌<◌, ◌≤◌, ℕ, None, Some, MatchBool, MatchOption, length, map, set, slice_get};
ghost use Rattle.boxcar.specs.Table.{Shows};
ghost use Rattle.stamp_marks.specs.Tokens.{IsOf, index_of};
ghost use Rattle.stamp_traces.specs.Shown.{IsTokenAt, booked_by, booking_of};

use boxcar::Pushed;
use stamp_marks::{Mark, MarkList, Token};

/// What stands at this place.
fn element<T>(list: &[T], at: usize) -> Option<&T>
    ensures { MatchOption result (length list.now ≤ at) (λ x. (slice_get list.now at ≡ Some x.now) × (at < length list.now)) }
{
    list.get(at)
}

/// Whether this is the token at a place of the list, or none is there and here.
pub(crate) fn is_token_at<D, V>(
    marks: &MarkList<D, V>,
    tokens: &[Option<Token<D, V>>],
    at: usize,
    token: &Option<Token<D, V>>,
) -> bool
    requires tokens { (n : ℕ) (t : _) → slice_get tokens.now n ≡ Some t → IsOf t marks.now }
    requires token { IsOf token.now marks.now }
    ensures { MatchBool result (IsTokenAt tokens.now at token.now) (slice_get (map index_of tokens.now) at ≢ Some (index_of token.now)) }
{
    match element(tokens, at) {
        Some(there) => marks.is_same(token, there),
        None => false,
    }
}

/// Whether the token is of the mark that is booked at a place of the list.
pub(crate) fn is_booked_at<D, V>(
    marks: &MarkList<D, V>,
    bookings: &[Option<Pushed<Mark<D, V>>>],
    at: usize,
    token: &Token<D, V>,
) -> bool
    requires bookings { (n : ℕ) (p : _) → slice_get bookings.now n ≡ Some (Some p) → Shows marks.now p }
    requires token { Shows marks.now token.now.mark }
    ensures { MatchBool result (slice_get (map booking_of bookings.now) at ≡ Some (Some (booked_by token.now.mark))) (slice_get (map booking_of bookings.now) at ≢ Some (Some (booked_by token.now.mark))) }
{
    match element(bookings, at) {
        Some(Some(place)) => marks.is_from(token, place),
        _ => false,
    }
}

/// Empties a place of the list, if there is one.
pub(crate) fn clear_at<T: Drop>(places: &mut Vec<Option<T>>, at: usize)
    ensures { places.new.items ≡ set places.old.items at None }
{
    if at < places.len() {
        places[at] = None;
    }
}
