//! The laws of the stream layer, over every schedule: what the network loses, repeats and reorders, what users and servers
//! ask, and where nodes and the manager stop and come back.

ghost use Rattle.std.specs.Prelude.{ℕ, List, ◌++◌, ◌<◌};
ghost use Rattle.model_streams.specs.Honest.{Agree, Kept};
ghost use Rattle.model_streams.specs.StreamSystem.{run, start, Move, moved, run_moves};
ghost use Rattle.model_streams.specs.declared.event.Event.{Event};
ghost use Rattle.laws_streams.specs.Answers.{OpeningsAnswered, ConfirmationsAnswered, ExtensionsAnswered, SealsAnswered, ContentAnswered, BasesTrimmed};
ghost use Rattle.laws_streams.specs.Fences.{FencesRise, MadeWithFences, Confirms, OpensIn, Settles, FencesHold};
ghost use Rattle.laws_streams.specs.Listings.{ListsGrow};
ghost use Rattle.laws_streams.specs.Origins.{Origins, OriginsOfMoves};

/// Whatever is lost, repeated or reordered, and wherever nodes and the manager stop and restart, also while they write a
/// record: all that is shown of an extent agrees, and what is acknowledged is kept where it was acknowledged, also in what
/// is sealed. Nothing of it is made up: the groups of an extent were appended one after the other, each by one delivery of
/// an append that had been sent, and each sealed length was the least that a place had told when it was decided. The same
/// holds whatever servers ask besides, under any generation.
pub fn honest()
    ensures agree { (nodes target : ℕ) (events : List Event) → Agree (run events (start nodes target)).notes }
    ensures kept { (nodes target : ℕ) (events : List Event) → Kept (run events (start nodes target)).notes }
    ensures origins { (nodes target : ℕ) (events : List Event) → Origins events (start nodes target) }
    ensures agree_moves { (nodes target : ℕ) (moves : List Move) → Agree (run_moves moves (start nodes target)).notes }
    ensures kept_moves { (nodes target : ℕ) (moves : List Move) → Kept (run_moves moves (start nodes target)).notes }
    ensures origins_moves { (nodes target : ℕ) (moves : List Move) → OriginsOfMoves moves (start nodes target) }
{}

/// Whatever servers ask, under any generation, and whatever is lost, repeated, reordered or stopped: the fence of a stream
/// never falls; each extent is made with the fence of its stream, and takes no append of a lower generation. Each opening
/// of a range is for a higher generation than those before it, so that none opens a range twice; and what opens a range
/// before a generation is confirmed is no higher than it, what opens it afterwards is. The length that answers a check
/// covers, for good, all that is ever acknowledged in the extent under a lower generation: each place has so much, the
/// extent is never sealed at less, and no group that is acknowledged, shown or read comes of an append of a lower generation
/// that is delivered after the answer.
pub fn fences()
    ensures streams { (nodes target : ℕ) (moves more : List Move) →
        FencesRise (run_moves moves (start nodes target)) (run_moves (moves ++ more) (start nodes target)) }
    ensures extents { (nodes target : ℕ) (moves : List Move) (move : Move) →
        MadeWithFences (run_moves moves (start nodes target)) (moved (run_moves moves (start nodes target)) move) }
    ensures opened_once { (nodes target range first second : ℕ) (before after : List Move) →
        OpensIn before (start nodes target) range first → OpensIn after (run_moves before (start nodes target)) range second → first < second }
    ensures confirmed { (nodes target range generation : ℕ) (before after : List Move) (confirming : Move) →
        Confirms (run_moves before (start nodes target)) confirming range generation → Settles before after confirming (start nodes target) range generation }
    ensures checked { (nodes target : ℕ) (before after : List Move) → FencesHold before after (start nodes target) }
{}

/// Whatever is lost, repeated, reordered or stopped, each answer belongs to a request that was asked under the same number by
/// the one who is answered, and tells what was so when it was answered: streams as they were when this request opened them,
/// a generation that this request confirmed, the extent that was last then or was added for this request, and the length at
/// which an extent is sealed for good. Groups that were read begin what was appended to the extent, up to where it was asked.
/// Blocks that were appended stand at the answered offset, as the ones of this request and its generation, and are
/// acknowledged there: from then on no place ends before them, and no seal cuts them off. The list of a log begins at index 0,
/// or where a Trim named it, which one that is no user had sent under the generation that was the log's fence when it came; or,
/// where the log was built from others, so it was with the first of them by then. Nothing is said of a check that is answered with
/// no length, nor of bytes and refusals.
pub fn answers()
    ensures opened { (nodes target : ℕ) (moves : List Move) → OpeningsAnswered moves (start nodes target) }
    ensures confirmed { (nodes target : ℕ) (moves : List Move) → ConfirmationsAnswered moves (start nodes target) }
    ensures extended { (nodes target : ℕ) (moves : List Move) → ExtensionsAnswered moves (start nodes target) }
    ensures sealed { (nodes target : ℕ) (before after : List Move) → SealsAnswered before after (start nodes target) }
    ensures content { (nodes target : ℕ) (before after : List Move) → ContentAnswered before after (start nodes target) }
    ensures bases { (nodes target : ℕ) (moves : List Move) → BasesTrimmed moves (start nodes target) }
{}

/// Whatever is lost, repeated, reordered or stopped: each extent of a stream is in the manager's catalog; a list only grows, with
/// those that have left it. Extents leave logs alone, never the last one, and for good. In each list but those of blob streams, to
/// which extents of logs come, each extent but the last is sealed, and while one is open it stands in no other list, and once in
/// its own; what is open in a blob stream stands in blob streams alone. A stream that is built has the lists of others of its kind,
/// so that an extent that is sealed may stand in several lists, and in one more than once. Where none of some streams is built from
/// more than one stream, which is one of them too, their extents stand in the order in which they were made, but for blob streams.
pub fn listed()
    ensures grow { (nodes target : ℕ) (before after : List Move) → ListsGrow before after (start nodes target) }
{}
