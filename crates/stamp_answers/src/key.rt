//! Which request of which user.
ghost use Rattle.std.specs.Prelude.{◌≡◌};
ghost use Rattle.stamp_answers.specs.Keys.{key_in, key_of};

use wire::ReqNo;

/// Which request of which user: what an answer is asked for by. A request of one user under a ticket that was used before has
/// the same key, and so shares the first answer.
#[derive(Clone, Copy, Debug, PartialEq, Eq, PartialOrd, Ord)]
pub struct AnswerKey {
    /// The user's number.
    pub user: u64,
    /// The ticket that the user gave its request.
    pub ticket: u64,
}

/// The key of a request's number, where it is a number of this user.
fn key_of(user: u64, number: ReqNo) -> Option<AnswerKey>
    ensures { result ≡ key_of user number }
{
    match number {
        ReqNo::User {
            user: owner,
            ticket,
        } => {
            if owner == user {
                Some(AnswerKey { user, ticket })
            } else {
                None
            }
        }
        _ => None,
    }
}

/// The same, where there is a number.
pub(crate) fn key_in(user: u64, number: Option<ReqNo>) -> Option<AnswerKey>
    ensures { result ≡ key_in user number }
{
    match number {
        Some(number) => key_of(user, number),
        None => None,
    }
}
