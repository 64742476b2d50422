//! The laws of traces.
ghost use Rattle.std.specs.Prelude.{◌≡◌, ◌++◌, ℕ, List, [], ◌∷◌};
ghost use Rattle.wire.specs.declared.note.Note.{Note};
ghost use Rattle.wire.specs.declared.packet.Packet.{Packet};
ghost use Rattle.model_streams.specs.Honest.{Agree, Kept};
ghost use Rattle.model_partition.specs.Cluster.{AreUnmerged, cluster_after_all};
ghost use Rattle.model_partition.specs.Honest.{Honest};
ghost use Rattle.model_partition.specs.Servers.{noted};
ghost use Rattle.stamp_traces.specs.Traces.{LeadsFrom};
ghost use Rattle.world_actors.specs.Actors.{first_of};
ghost use Rattle.world_actors.specs.Steps.{Goes};
ghost use Rattle.world_actors.specs.declared.run_actor.RunActor.{RunActor};
ghost use Rattle.laws_traces.specs.Traces.{AreNumbers, IsLegalEntry, IsLegalFrom, IsLegalTrace, Reaches, RunEntry, events_of, first_cluster_of, observed, sent_by};

/// From the actors of a setup a legal trace leads to the cluster that its events make of the first one, one after the other: the packets
/// of its steps are all that this cluster has sent, in order, what they show is all that it has shown, and each of its actors is as the
/// trace leaves it (`leads`). So what holds of runs holds of the trace, whatever is delivered, again and in any order, and on however many
/// threads the actors step: all that is shown of an extent agrees (`agree`), every acknowledged append stands in it at its answered offset
/// (`kept`), and where no event merges ranges, what is observed of tables replays (`honest`).
pub fn traces_lead()
    ensures leads { (ns : List ℕ) → AreNumbers ns → (xs : List RunEntry) (t : ℕ → RunActor) → LeadsFrom Goes (first_of ns) xs t → IsLegalFrom ns [] xs →
        Reaches ns xs t (cluster_after_all (first_cluster_of ns) (events_of xs)) }
    ensures agree { (ns : List ℕ) → AreNumbers ns → (xs : List RunEntry) → IsLegalTrace ns xs → Agree (observed [] xs) }
    ensures kept { (ns : List ℕ) → AreNumbers ns → (xs : List RunEntry) → IsLegalTrace ns xs → Kept (observed [] xs) }
    ensures honest { (ns : List ℕ) → AreNumbers ns → (xs : List RunEntry) → IsLegalTrace ns xs → AreUnmerged (events_of xs) →
        Honest (observed [] xs) }
{}

/// A list of entries stays legal where one more is legal after all that they have sent (`legal`). Then its packets are sent, its event
/// has come, and its observations are made, after all others.
pub fn traces_grow()
    ensures legal { (ns : List ℕ) (post : List Packet) (xs : List RunEntry) (x : RunEntry) → IsLegalFrom ns post xs →
        IsLegalEntry ns (post ++ sent_by xs) x → IsLegalFrom ns post (xs ++ x ∷ []) }
    ensures sent { (xs : List RunEntry) (x : RunEntry) → sent_by (xs ++ x ∷ []) ≡ sent_by xs ++ x.reply.packets }
    ensures events { (xs : List RunEntry) (x : RunEntry) → events_of (xs ++ x ∷ []) ≡ events_of xs ++ x.event.event ∷ [] }
    ensures shown { (notes : List Note) (xs : List RunEntry) (x : RunEntry) →
        observed notes (xs ++ x ∷ []) ≡ noted (observed notes xs ++ x.reply.notes) x.reply.tables }
{}
