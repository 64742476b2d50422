//! Keys, tickets and outcomes, and a look-up of first answers.
use model_streams::Event;
use stamp_answers::{
    Answer, AnswerKey, FirstAnswers, Ticket, answer_key, outcome_of, request_key, ticket_of,
};
use std::test::Fail;
use wire::{
    ActorId, Body, Fence, Packet, RangeId, Refusal, ReqNo, StreamBody, StreamKind, StreamName,
};

const FIRST: AnswerKey = AnswerKey { user: 7, ticket: 3 };

fn created(user: u64) -> Packet {
    Packet {
        from: ActorId::Manager,
        to: ActorId::User(user),
        body: Body::Stream(StreamBody::Created {
            request: ReqNo::User { user: 7, ticket: 3 },
        }),
    }
}

fn creation() -> Body {
    Body::Stream(StreamBody::CreateStream {
        stream: StreamName {
            range: RangeId(1),
            kind: StreamKind::Log,
        },
        fence: Fence(1),
        request: ReqNo::User { user: 7, ticket: 3 },
    })
}

#[test]
fn keys(rt: HostRuntime) -> Result<(), Fail> {
    assert!(rt; answer_key(&created(7)) == Some(FIRST));
    assert!(rt; answer_key(&created(8)) == None);
    assert!(rt; request_key(7, &creation()) == Some(FIRST));
    assert!(rt; request_key(8, &creation()) == None);
    let event = Event::Submit {
        user: 7,
        to: ActorId::Manager,
        body: creation(),
    };
    assert!(rt; ticket_of(7, &event, 5) == Ticket::Request { key: FIRST });
    assert!(rt; ticket_of(8, &event, 5) == Ticket::Unanswered);
    assert!(rt; ticket_of(7, &Event::Moment { now: 1 }, 5) == Ticket::Event { place: 5 });
    let taken = outcome_of(None);
    assert!(rt; matches!(&taken, Answer::Taken));
    let refused = outcome_of(Some(Refusal::Stale));
    assert!(rt; matches!(&refused, Answer::Refused(Refusal::Stale)));
    Ok(())
}

#[test]
fn first_answers(rt: HostRuntime) -> Result<(), Fail> {
    let mut answers = FirstAnswers::new(rt.alloc());
    let other = AnswerKey { user: 3, ticket: 7 };
    answers.keep(FIRST, 12)?;
    assert!(rt; answers.number(&FIRST) == Some(12));
    assert!(rt; answers.number(&other) == None);
    answers.keep(other, 13)?;
    answers.remove(&FIRST);
    assert!(rt; answers.number(&FIRST) == None);
    assert!(rt; answers.number(&other) == Some(13));
    Ok(())
}
