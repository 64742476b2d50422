//! What servers do over any streams: where the stories that they see of a range's metadata and log keep their order, and no split makes the
//! range, what they load replays, and the tables of a range that is served are those of the line that ends at its log position.
//!
//! This crate has no code, and touches nothing. Its lemmas are about the rules of servers alone (`model_partition`): no number of a
//! request, no fence, no node and no machine of a stream occurs in them. What all servers do to the tables of a range is a run of
//! the law of chains (`laws_tables`), and what one of them holds while it serves is what the run says that its generation holds.
//! That, and what a range has read while it loads, stands in specs/; the lemmas follow each rule (`Loads`, `Confirms`,
//! `ServedForms`, `ServedStands`), what its split does behind it (`SplitMore`, `SplitTurns`), then one server beside the others, and then a
//! list of events, over which the range is none of the two of a split (`Apart`) and no merge begins (`Unmerged`). `laws` states the
//! clauses.
//! What is said of the tables of a range is said within the keys that its metadata names; a range that no split made has all (`KeptKeys`).
//! A range whose streams were built of another's takes what that one's run was then (`ChildTheorem`), while nothing is out there nor formed
//! since (`ClosedRanges`, `FormedGroups`). Where each range of which anything is told is the first one, or such a one whose split waited
//! for its end, and the map says so, all that is told replays (`FamilyMembers`, `CompletedSplits`, `SplitsReplay`).
//! Gets wait only at ranges that are served, and their keys are the range's (`GetsServed`); each that is answered shows the table of the line that
//! its generation has come to, while the lease lasts and nothing has paused the range (`AnsweredGets`). What is kept of a range that is served
//! at a moment goes on from there (`ServedMoments`), and all that is told of it comes under generations that it was loaded under (`FamilyLoads`);
//! a split that waited for its end has closed its range since (`ClosedSplits`). So a Get that was answered while nothing newer was told is what the
//! law of families wants of it (`FamilyReads`).
//! What each step of a checkpoint leaves is proved beside them (`CheckpointSteps`, `CheckpointKept`), also while one that combines merges
//! the older pages (`CheckpointMerges`), those that the range's cache holds among them (`HeldBytes`). Numbers are any here, where a
//! server has those of 64 and of 32 bits: the rules test those of a checkpoint, and the end of a log that is served.
#![tactic(auto)]
