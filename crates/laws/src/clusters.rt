//! The laws of whole runs with servers and the map.

ghost use Rattle.std.specs.Prelude.{◌≡◌, ℕ, Bool, List, Some, Contains};
ghost use Rattle.block_types.specs.declared.record.Nodes.{Nodes};
ghost use Rattle.wire.specs.declared.actor.ActorId.{ActorId};
ghost use Rattle.wire.specs.declared.actor.ActorId.TheVariants.{Map};
ghost use Rattle.wire.specs.declared.body.Body.{Body};
ghost use Rattle.wire.specs.declared.packet.Packet.{Packet};
ghost use Rattle.model_streams.specs.Maps.{entry_at};
ghost use Rattle.model_streams.specs.Outcome.{packet};
ghost use Rattle.model_streams.specs.Honest.{Agree, Kept};
ghost use Rattle.model_streams.specs.StreamSystem.{start};
ghost use Rattle.model_streams.specs.declared.event.Event.{Event};
ghost use Rattle.model_partition.specs.declared.range_entry.RangeEntry.{RangeEntry};
ghost use Rattle.model_partition.specs.Honest.{Honest};
ghost use Rattle.model_partition.specs.Map.{range_at};
ghost use Rattle.model_partition.specs.Past.{Bytes, first_range, keys_of};
ghost use Rattle.model_partition.specs.Range.{RangeState};
ghost use Rattle.model_histories.specs.ServedTables.{IsAtLine, ServesAt};
ghost use Rattle.model_histories.specs.ServerRun.{log_name};
ghost use Rattle.model_histories.specs.TableContents.{AllTellRightly};
ghost use Rattle.model_partition.specs.Servers.{ArePlain, ServerCell, ShowsLoad, server_checkpoints, server_gives_up, server_loads, server_merges, server_splits, server_takes};
ghost use Rattle.model_histories.specs.Story.{KeepsOrder};
ghost use Rattle.model_partition.specs.Cluster.{AreUnmerged, Cluster, first_cluster, cluster_after, cluster_after_all};
ghost use Rattle.laws_server_runs.specs.OwnKeys.{IsAtLineWithin};
ghost use Rattle.laws_clusters.specs.Leases.{Lease, lease_in, KeepsTo};
ghost use Rattle.laws_clusters.specs.Orders.{ComesOfStreams};
ghost use Rattle.laws_clusters.specs.ServerEvents.{events_of_run, servers_of_run};
ghost use Rattle.laws_clusters.specs.Timely.{AreApart, AreTimely, ServesAlone, HoldsAlone};
ghost use Rattle.laws_servers.specs.Sending.{ByMoves, MaySendAll};

/// A server sends nothing but what servers may ask of nodes and of the manager, and what no node takes. Of loaded tables it
/// shows at most one, of the table that the range has when the answer comes that confirms its generation; where it gives up, or
/// begins a checkpoint, a split or a merge, none. This is so of any servers, whatever splits and merges are under way at them.
pub fn servers_take_steps()
    ensures sent { (servers : List ServerCell) (s : ℕ) (p : Packet) → MaySendAll (server_takes servers s p).packets }
    ensures shown { (servers : List ServerCell) (s : ℕ) (p : Packet) →
        ShowsLoad (server_loads (entry_at servers s) p.body) (server_takes servers s p).notes }
    ensures sent_again { (servers : List ServerCell) (s range : ℕ) (pick : Nodes) → MaySendAll (server_gives_up servers s range pick).packets }
    ensures shown_again { (servers : List ServerCell) (s range : ℕ) (pick : Nodes) → ArePlain (server_gives_up servers s range pick).notes }
    ensures sent_by_checkpoints { (servers : List ServerCell) (s range : ℕ) (combine : Bool) → MaySendAll (server_checkpoints servers s range combine).packets }
    ensures shown_of_checkpoints { (servers : List ServerCell) (s range : ℕ) (combine : Bool) → ArePlain (server_checkpoints servers s range combine).notes }
    ensures sent_by_splits { (servers : List ServerCell) (s range : ℕ) (key : List ℕ) → MaySendAll (server_splits servers s range key).packets }
    ensures shown_of_splits { (servers : List ServerCell) (s range : ℕ) (key : List ℕ) → ArePlain (server_splits servers s range key).notes }
    ensures sent_by_merges { (servers : List ServerCell) (s left right : ℕ) → MaySendAll (server_merges servers s left right).packets }
    ensures shown_of_merges { (servers : List ServerCell) (s left right : ℕ) → ArePlain (server_merges servers s left right).notes }
{}

/// Whatever servers and the map do, each event is some moves of the stream layer.
pub fn runs_are_moves()
    ensures { (c : Cluster) (event : Event) → ByMoves c.stream_layer (cluster_after c event).stream_layer }
{}

/// Whatever is asked, delivered, lost or repeated, whoever stops, comes back, gives up, makes checkpoints, splits a range or merges two,
/// and whoever is assigned one, all that is shown of an extent agrees (`agree`), and what is acknowledged is kept where it was
/// acknowledged (`kept`). Where no two ranges are merged what is observed is honest, whatever ranges are split: each table that is shown is
/// also that of a line of transactions, within the keys that the splits left to its range, and the line has every one that was
/// acknowledged under a lower generation of the range or of one that it was split from, in order, each once; and each Get that is answered
/// shows what is stored under its key after every transaction that was acknowledged so far, under whatever generation (`honest`). There the servers
/// are those that what comes to them makes, and the streams that they see keep their order; the streams of a range that a split built of
/// another's have of these what was done by then, and each append that they answer, by then or later, up to the generation that the split
/// named, at its place and before all that was appended to them alone (`ordered`). So the laws of servers over any streams are laws of
/// runs: a range that is served has the keys that the splits which were observed left to it, and its tables, its
/// indexes among them, are within them the table of the line that ends at its log position, over any texts that have all that was
/// observed of extents (`served`); those of the first range, which
/// no split makes, are so for all keys (`served_first`).
pub fn runs_are_honest()
    ensures agree { (nodes servers target batch : ℕ) (events : List Event) →
        Agree (cluster_after_all (first_cluster nodes servers target batch) events).stream_layer.notes }
    ensures kept { (nodes servers target batch : ℕ) (events : List Event) →
        Kept (cluster_after_all (first_cluster nodes servers target batch) events).stream_layer.notes }
    ensures honest { (nodes servers target batch : ℕ) (events : List Event) → AreUnmerged events →
        Honest (cluster_after_all (first_cluster nodes servers target batch) events).stream_layer.notes }
    ensures ordered { (nodes servers target batch : ℕ) (events : List Event) → AreUnmerged events →
        ComesOfStreams (cluster_after_all (first_cluster nodes servers target batch) events) batch servers (events_of_run nodes servers target batch events) }
    ensures served { (nodes servers target batch : ℕ) (events : List Event) → AreUnmerged events →
        (texts : ℕ → Bytes) (s range : ℕ) (r : RangeState) →
        AllTellRightly texts (cluster_after_all (first_cluster nodes servers target batch) events).stream_layer.notes →
        ServesAt (servers_of_run nodes servers target batch events) s range r →
        (order : KeepsOrder ((servers_of_run nodes servers target batch events).story (log_name range))) →
        IsAtLineWithin texts (keys_of (cluster_after_all (first_cluster nodes servers target batch) events).stream_layer.notes range)
        ((servers_of_run nodes servers target batch events).story (log_name range)) order.copies r }
    ensures served_first { (nodes servers target batch : ℕ) (events : List Event) → AreUnmerged events →
        (texts : ℕ → Bytes) (s : ℕ) (r : RangeState) →
        AllTellRightly texts (cluster_after_all (first_cluster nodes servers target batch) events).stream_layer.notes →
        ServesAt (servers_of_run nodes servers target batch events) s first_range r →
        (order : KeepsOrder ((servers_of_run nodes servers target batch events).story (log_name first_range))) →
        IsAtLine texts ((servers_of_run nodes servers target batch events).story (log_name first_range)) order.copies r }
{}

/// The map keeps to each lease that it told a server of, by an assignment or a renewal, whatever comes, splits and merges of ranges and
/// stops of the map among it: while the map has the range, its entry has the lease's generation and end or above; under the lease's own
/// generation that server holds it; and where another server holds it, or none, the lease has ended (`kept`). So of two leases of a
/// range that it told under two generations both are of one server, or the lower one has ended (`apart`). There is one clock: each server
/// that runs sees the last moment, also one that was started anew, and each range that it holds it holds under a lease that the map told
/// it, to that lease's end (`timely`). So while the lease lasts of a range whose streams were told to the server that holds it, nobody
/// has loaded the range under a higher generation (`alone`); and no two servers hold one range within their leases (`held_once`).
pub fn leases_are_kept()
    ensures kept { (nodes servers target batch : ℕ) (events : List Event) → (to : ActorId) (body : Body) →
        Contains (cluster_after_all (first_cluster nodes servers target batch) events).stream_layer.post (packet Map to body) →
        (lease : Lease) → lease_in to body ≡ Some lease → (x : RangeEntry) →
        range_at (cluster_after_all (first_cluster nodes servers target batch) events).map.ranges lease.range ≡ Some x →
        KeepsTo lease (cluster_after_all (first_cluster nodes servers target batch) events).now x.generation x.until x.holder }
    ensures apart { (nodes servers target batch : ℕ) (events : List Event) →
        AreApart (cluster_after_all (first_cluster nodes servers target batch) events) }
    ensures timely { (nodes servers target batch : ℕ) (events : List Event) →
        AreTimely (cluster_after_all (first_cluster nodes servers target batch) events) }
    ensures alone { (nodes servers target batch : ℕ) (events : List Event) →
        ServesAlone (cluster_after_all (first_cluster nodes servers target batch) events) }
    ensures held_once { (nodes servers target batch : ℕ) (events : List Event) →
        HoldsAlone (cluster_after_all (first_cluster nodes servers target batch) events) }
{}
