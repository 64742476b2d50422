//! Laws of tables, and of the streams that they are loaded from. Runs of a range and of those that it was split from are defined
//! in `laws_tables`, and all else that is said here in `model_partition`.

ghost use Rattle.std.specs.Prelude.{◌≡◌, ◌++◌, List, ℕ, suc};
ghost use Rattle.wire.specs.declared.note.Note.{Note};
ghost use Rattle.wire.specs.declared.rows.Row.{Row};
ghost use Rattle.memtable.specs.declared.cell.Place.{Place};
ghost use Rattle.commitlog.specs.Replay.{Numbered as Group};
ghost use Rattle.model_histories.specs.StreamMachine.{after, Extended, In, IsRun, MachineStep};
ghost use Rattle.model_partition.specs.Past.{Bytes, Transaction, Replays, table_notes, first_range, keys_of};
ghost use Rattle.model_partition.specs.Range.{RangeState};
ghost use Rattle.model_histories.specs.ServedTables.{AreFirst, AreSeenAs, AreUnborn, IsAtLine, ServesAt, StreamsInOrder};
ghost use Rattle.model_histories.specs.ServerRun.{ServerEvent, log_name, run_of};
ghost use Rattle.model_histories.specs.Story.{KeepsOrder, EndsRise};
ghost use Rattle.model_histories.specs.ServerTurns.{after_all, AreMoves, Growing, Move};
ghost use Rattle.laws_tables.specs.Built.{KeepsSource};
ghost use Rattle.laws_tables.specs.Ends.{StandsBehind};
ghost use Rattle.laws_tables.specs.Families.{HasNoBirth, IsFamily};
ghost use Rattle.laws_tables.specs.Layers.{Layer};
ghost use Rattle.laws_tables.specs.Reads.{AreReads, ReplaysAndServes};
ghost use Rattle.laws_tables.specs.Runs.{Beginning, ChainReplays, IsBeginning, IsChainRun, KeepsKeys, Run, ShowsLayers, first_beginning, log_of, meta_of, seen};
ghost use Rattle.laws_server_runs.specs.Answerers.{MapBook, AreAnswered, AllAreShown};
ghost use Rattle.laws_server_runs.specs.BornRanges.{AllInOrder};
ghost use Rattle.laws_server_runs.specs.FamilyMembers.{of_servers};
ghost use Rattle.laws_server_runs.specs.OwnKeys.{IsAtLineWithin};
ghost use Rattle.laws_server_runs.specs.Reads.{AllAnswer};

/// Each load of a range shows the table after every transaction whose append was answered under an earlier generation, in order,
/// each once, where the streams of its log and of its metadata keep their order, loads of the log end in the order of their
/// generations, and its servers follow their rules. Those may put transactions into indexes, let go of the front of the log, load
/// from where the metadata says, and narrow the keys; and the range may begin with any table, at any place of its log (`chain`).
/// Where nothing narrows the keys of the first range, all that is observed of it replays, and observations of extents may stand
/// between those of tables (`law`). `rows` are what each load shows, by its number in the log's story, and `layer_at` is what the
/// index at a place says.
///
/// What is observed of all ranges together replays, where they are a family (`families`): each of which anything is told is the
/// first, or a split made it of one of them. A child's streams are its parent's as they stood at one moment; they keep their order
/// as they go on, and so do the parent's. The generation that split the parent had been loaded by then, all that it formed was
/// answered, nothing is told of the parent under a higher one, and each load of the child has a higher one and the keys that the
/// split left to it. Whatever the parent still shows late stands in the child's loads too.
///
/// Each Get that a family's ranges answer shows what is stored under its key in the table after every transaction that was
/// acknowledged so far, in order, each once, and what each load of a higher generation shows goes on from there (`reads`). Premised is
/// that it is answered at a moment of its range's own run at which nothing has been told of the range under a higher generation, nor
/// of a range that splits made of it, and that it shows the table of the line which its generation has come to by then.
pub fn tables_replay()
    ensures chain { (layer_at : Place → Layer) (b : Beginning) (rows : ℕ → List Row) (run : Run) (order : KeepsOrder (log_of run)) →
        IsBeginning layer_at b → IsChainRun layer_at b run → ShowsLayers layer_at b rows run → EndsRise (log_of run) → StandsBehind b.place (log_of run) order
        → KeepsOrder (meta_of run) → ChainReplays b rows run }
    ensures law { (layer_at : Place → Layer) (rows : ℕ → List Row) (run : Run) (h : List Note) → IsChainRun layer_at first_beginning run → KeepsKeys run
        → ShowsLayers layer_at first_beginning rows run → KeepsOrder (log_of run) → EndsRise (log_of run) → KeepsOrder (meta_of run)
        → table_notes h ≡ seen first_beginning rows first_range run → Replays h }
    ensures families { (layer_at : Place → Layer) (h : List Note) → IsFamily layer_at h → Replays h }
    ensures reads { (layer_at : Place → Layer) (h : List Note) (family : IsFamily layer_at h) → AreReads layer_at h family → ReplaysAndServes h }
{}

/// Whatever comes to servers that merge no ranges, from whomever and however often, wherever they stop, start, give up, make checkpoints or split
/// ranges: where the map and the manager answer by their tables, what they see of the metadata and the log of each range keeps its order,
/// no generation is confirmed twice, loads of a log end in the order of their generations, and what reads were shown and appends were
/// answered for keeps its bytes, what is observed of servers and of the map replays, whatever ranges are split (`law`): each of which
/// anything is observed is the first, or one that a split made which the map shows, and loads that it shares with the range that was
/// split are loads of the same copies. Each range that is served, whatever split made it, then has the keys that the splits left to it,
/// and its tables, its indexes among them, are at any moment within them the table of the line that ends at its log position
/// (`children`). And each Get that a server answers shows the table of that line as it is when it is answered: the server serves the range
/// then, under the generation that is shown, no split or merge has paused it, its lease has not ended, and the key is one of its own (`reads`).
///
/// Of one range alone less is premised. Where the map assigns only the first range, whose number it gives to neither of the two that a
/// split makes, and whose streams are built of no other's, what servers load of it replays, whatever comes of other streams (`first`). The
/// tables of any range of such a number are those of its line for all keys, whatever other ranges its server holds, also while
/// it is split (`steps`), and whichever copies of the log each load is taken for (`served`). Nothing is said of who answers: any
/// streams, of any number of any machines, are allowed that keep their order.
pub fn servers_replay()
    ensures law { (batch servers : ℕ) (texts : ℕ → Bytes) (b : MapBook) (events : List ServerEvent) (notes : List Note) → AreAnswered b batch servers events →
        (order : AllInOrder texts batch servers events) → AreSeenAs texts (run_of batch servers events).notes (of_servers notes) →
        AreUnborn first_range events → HasNoBirth first_range notes → AllAreShown b texts batch servers events notes order → Replays notes }
    ensures children { (batch servers : ℕ) (texts : ℕ → Bytes) (b : MapBook) (events : List ServerEvent) (notes : List Note) → AreAnswered b batch servers events →
        (order : AllInOrder texts batch servers events) → AreSeenAs texts (run_of batch servers events).notes (of_servers notes) →
        AreUnborn first_range events → HasNoBirth first_range notes → AllAreShown b texts batch servers events notes order →
        (s range : ℕ) (r : RangeState) → ServesAt (run_of batch servers events) s range r → (log : KeepsOrder ((run_of batch servers events).story (log_name range))) →
        IsAtLineWithin texts (keys_of notes range) ((run_of batch servers events).story (log_name range)) log.copies r }
    ensures reads { (batch servers : ℕ) (texts : ℕ → Bytes) (b : MapBook) (events : List ServerEvent) → AreAnswered b batch servers events →
        AllInOrder texts batch servers events → AllAnswer batch servers events }
    ensures first { (batch servers : ℕ) (texts : ℕ → Bytes) (events : List ServerEvent) (notes : List Note) → AreUnborn first_range events → AreFirst events →
        StreamsInOrder texts first_range (run_of batch servers events) →
        AreSeenAs texts (run_of batch servers events).notes (table_notes notes) → Replays notes }
    ensures steps { (batch servers : ℕ) (texts : ℕ → Bytes) (events : List ServerEvent) (s range : ℕ) (r : RangeState) → AreUnborn range events →
        (p : StreamsInOrder texts range (run_of batch servers events)) →
        ServesAt (run_of batch servers events) s range r → IsAtLine texts ((run_of batch servers events).story (log_name range)) p.log.copies r }
    ensures served { (batch servers : ℕ) (texts : ℕ → Bytes) (events : List ServerEvent) (s range : ℕ) (r : RangeState) → AreUnborn range events →
        StreamsInOrder texts range (run_of batch servers events) →
        ServesAt (run_of batch servers events) s range r → (log : KeepsOrder ((run_of batch servers events).story (log_name range))) →
        IsAtLine texts ((run_of batch servers events).story (log_name range)) log.copies r }
{}

/// What the loads of one stream show keeps its order: for servers that do whatever what they know allows (`law`), and for
/// servers that follow their table (`table`), whose own count of the stream's extents is then right (`index`) and whose loads end
/// in the order of their generations (`ends`). A stream that was built of another's, and so begins with all that had been done on
/// its source, keeps its order with the source, and shows each append that the source answers, then or ever, if it was made under
/// a lower generation than the source's last load by then, or under that one and answered by then (`built`).
pub fn streams_keep_order()
    ensures law { (generation : ℕ → ℕ) (steps : List (MachineStep (Group Transaction))) → IsRun (Group Transaction) generation steps →
        KeepsOrder (after (Group Transaction) generation steps).story }
    ensures table { (generation : ℕ → ℕ) (moves : List (Move (Group Transaction) generation)) → AreMoves (Group Transaction) generation moves →
        KeepsOrder (after_all (Group Transaction) generation moves).state.story }
    ensures index { (generation : ℕ → ℕ) (moves : List (Move (Group Transaction) generation)) → AreMoves (Group Transaction) generation moves →
        (i n m append : ℕ) (group : Group Transaction) → (after_all (Group Transaction) generation moves).phase i ≡ Growing n append group →
        In (Extended i n m) (after_all (Group Transaction) generation moves).state.facts → m ≡ suc n }
    ensures ends { (generation : ℕ → ℕ) (moves : List (Move (Group Transaction) generation)) → AreMoves (Group Transaction) generation moves →
        EndsRise (after_all (Group Transaction) generation moves).state.story }
    ensures built { (generation : ℕ → ℕ) (early late own : List (Move (Group Transaction) generation)) →
        AreMoves (Group Transaction) generation (late ++ early) → AreMoves (Group Transaction) generation (own ++ early) →
        KeepsSource (Group Transaction) generation early late own }
{}
