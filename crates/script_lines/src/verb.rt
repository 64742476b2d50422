//! The words that lines and requests begin with.
ghost use Rattle.std.specs.Prelude.{◌≡◌};
ghost use Rattle.script_lines.specs.Sequences.{Reads};
ghost use Rattle.script_lines.specs.Verbs.{verb_word, wish_word};

/// What a line begins with.
#[derive(Clone, Copy)]
pub enum Verb {
    User,
    Deliver,
    Settle,
    Cut,
    Heal,
    Show,
    Stop,
    Restart,
    Decide,
    GiveUp,
    Checkpoint,
    Split,
    Merge,
    Assign,
    Renew,
    Moment,
}

/// What a request begins with.
#[derive(Clone, Copy)]
pub enum Wish {
    Create,
    Extend,
    Append,
    Read,
    Content,
    Seal,
    Transact,
    Get,
    Route,
}

/// The verb that this word is.
pub fn verb_of(word: &str) -> Option<Verb>
    ensures { Reads (λ verb text. text ≡ verb_word verb) result word.now }
{
    match word {
        "user" => Some(Verb::User),
        "deliver" => Some(Verb::Deliver),
        "settle" => Some(Verb::Settle),
        "cut" => Some(Verb::Cut),
        "heal" => Some(Verb::Heal),
        "show" => Some(Verb::Show),
        "stop" => Some(Verb::Stop),
        "restart" => Some(Verb::Restart),
        "decide" => Some(Verb::Decide),
        "giveup" => Some(Verb::GiveUp),
        "checkpoint" => Some(Verb::Checkpoint),
        "split" => Some(Verb::Split),
        "merge" => Some(Verb::Merge),
        "assign" => Some(Verb::Assign),
        "renew" => Some(Verb::Renew),
        "moment" => Some(Verb::Moment),
        _ => None,
    }
}

/// The wish that this word is.
pub fn wish_of(word: &str) -> Option<Wish>
    ensures { Reads (λ wish text. text ≡ wish_word wish) result word.now }
{
    match word {
        "create" => Some(Wish::Create),
        "extend" => Some(Wish::Extend),
        "append" => Some(Wish::Append),
        "read" => Some(Wish::Read),
        "content" => Some(Wish::Content),
        "seal" => Some(Wish::Seal),
        "tx" => Some(Wish::Transact),
        "get" => Some(Wish::Get),
        "route" => Some(Wish::Route),
        _ => None,
    }
}
