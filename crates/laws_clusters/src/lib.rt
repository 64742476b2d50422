//! Whole runs with partition servers in which no two ranges are merged: their servers see streams that keep their order, and what they
//! show replays, whatever else happens, also where ranges are split.
//!
//! This crate has no code, and touches nothing. Its lemmas keep one invariant of a cluster through each event (`Invariant`): the
//! machines of the streams of each range go on beside the run, each range at a server is of an incarnation of its own, no number
//! of a request is used twice, and the stories that the servers make of what comes to them are those of the machines. It begins with
//! a cluster to which nothing has come (`FirstStanding`), and holds whatever the map is asked, splits and merges too (`MapSteps`).
//! `Theorem` draws the conclusion that `runs_are_honest` of the crate `laws` states, and `world` of its runs. Of all runs, merges among
//! them, it is so that the map keeps to the leases that it told, of which two of a range are apart (`LeasesInRuns`); that servers go by
//! one clock and hold ranges under leases that the map told (`Moments`); and that while such a lease lasts nobody else holds the range
//! within one, nor has loaded it above (`ServesAlone`). For these each step of a server is gone through, splits and merges in it (`HeldRanges`, `MergeLoads`), with what is known
//! of the ranges that it holds (`LeasedRanges`) and of all that were opened and loaded (`LoadsElsewhere`).
//!
//! Of splits stands, over all runs without merges: no split makes a second first range
//! (`FirstNumber`); a stream that is to come stays so, or begins without an extent, or as the stream that it is built of (`StreamFates`);
//! and streams of which a server is told that they are built are there (`BuiltAnswers`). Each range of which anything is told is the first
//! one or a child of another (`RunOrigins`), and under a generation of at least 1 and at most that of its entry (`ShownGenerations`). Each
//! range that the map has or assigned, that a server holds, or of which anything is told has its streams (`BuiltSplits`). Each split that
//! is shown makes two children, and none the first range (`Births`); what is told of the range comes under no higher generation than the
//! split, and what is told of the two under higher ones (`NoteBounds`).
//! The invariant stands beside splits: each range at a server follows its streams and its split, whose requests are told apart by
//! their numbers (`SplitRequests`, `RowSteps`), the streams of two ranges may be built of its own (`BuiltRanges`), and the metadata of the two
//! stands as the incarnation of the range that is split has it, from the build until their keys are appended (`KeysStand` of `Invariant`,
//! `SplitSidesKept`, `StepKeys`). It stands on through each event of a run without merges (`ServerPackets`, `ClusterEvents`), but for what is
//! owed there (`SplitsOwed` and `LeavingOwed` of `SplitServers`), and of that all is proved: that the map's numbers for the two ranges of a
//! split are other ones, from 1 on (`SplitNumbers`); that the appends of their keys go on as the streams stand (`KeysMoves`, `KeysSteps`,
//! `KeysOwed`), whose server holds neither of the two by then (`SideFacts`); that what servers know of their blob streams, and what they
//! are told of them, is closed (`ClosedServers`, `BlobLists`); that the streams of what takes the place of others at the map are there
//! (`CompletedSplits`); and that the tables which are shown lie within what was read (`BareRanges`). So the cluster stands over every such
//! run (`SplitEvents`, `SplitRuns`). The metadata and the logs of ranges that were built of each other stay one for what both had then
//! (`SharedLogs`, `SharesInRuns`). From the moment at which a server asks for the streams of a split's two ranges (`AskedBuilds`) nothing is out
//! under the generation that it names, and nothing is begun under it (`PausedStreams`, `RestingIncarnations`), so these have all that their
//! source ever answers up to that generation (`BuiltParts`, `SourceParts`). Each split that is shown was one of a server that waited for its end (`EndedSplits`), and streams are built as splits
//! wait for them (`BornSo`, `UntoldRanges`). So the ranges of a run without merges are members of a family (`ToldRanges`, `RunMembers`), and
//! each range that is served is at its line within its own keys (`Theorem`). Each Get whose answer is observed has its event (`ReadMoments`),
//! with which a server shows answered Gets alone (`GotSteps`). As the lease lasts then and no split has paused the range, nothing of it was told
//! under a higher generation, nor anything of a range that it is an ancestor of (`ReadsAlone`). So what is told replays, and each answered Get
//! shows all that was acknowledged so far (`ReadRanges`).
#![tactic(auto)]
