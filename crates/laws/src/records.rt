//! The law of records: no restart takes one that no rule writes.

ghost use Rattle.std.specs.Prelude.{◌≡◌, ℕ, true, List, ◌∷◌, ◌++◌};
ghost use Rattle.block_types.specs.declared.record.Record.{Record};
ghost use Rattle.blocks.specs.Record.{IsInRange};
ghost use Rattle.replica.specs.Replay.{fit};
ghost use Rattle.model_streams.specs.Replay.{catalog_fits, catalog_replay};
ghost use Rattle.model_partition.specs.Replay.{map_fits, map_replay};
ghost use Rattle.laws_records.specs.Texts.{HasBytes};
ghost use Rattle.laws_records.specs.NodeRecords.{NodeWrites};
ghost use Rattle.laws_records.specs.ManagerRecords.{ManagerWrites};
ghost use Rattle.laws_records.specs.MapRecords.{MapWrites};

/// No test that a restart makes of its records is too weak: each record of a list that fits, which is what a restart takes, is
/// one that the actor would write, byte for byte, as soon as it is restarted from those before it. A node writes it at a packet that
/// another sends (`node`). The manager does so too, or where it decides on an extent right after such a packet, at which it writes
/// nothing; and the first record is one that a manager is made with (`manager`). The map writes it at a packet that another sends, or at
/// an assignment, at some moment, or a renewal that is not refused (`map`). Nothing is said of which packets are on their way then.
pub fn records_are_of_rules()
    ensures node { (n : ℕ) (before after : List Record) (r : Record) → fit n (before ++ r ∷ after) ≡ true → IsInRange r →
        NodeWrites n before r }
    ensures manager { (before after : List Record) (r : Record) → catalog_fits (before ++ r ∷ after) ≡ true → HasBytes r →
        ManagerWrites (catalog_replay before) r }
    ensures map { (before after : List Record) (r : Record) → map_fits (before ++ r ∷ after) ≡ true → HasBytes r →
        MapWrites (map_replay before) r }
{}
