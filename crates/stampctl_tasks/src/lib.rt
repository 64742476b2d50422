//! What `stampctl` does at its words, and the status that it ends with.
//!
//! The crate reads one file or the standard input, makes the new file of a migration, writes lines to the standard output, and to the
//! standard error texts about wrong words, about the line at which a script cannot be read and about a file that cannot be read or made,
//! and touches nothing else. Its one call, `perform`, takes what `stampctl_words` made of the words. It runs the script of a task by
//! `script_run`, dumps a record file by `record_dump`, migrates one by `disk`, prints all through a `spool`, and tells wrong words. The
//! status is 0 where a script ran to its end or a file was dumped or migrated, 1 where it was refused or memory for the words ran out,
//! told by the line `refused N Name`, and 2 for wrong words. That a refused migration leaves no new file is tested and not proved, since
//! no contract says what files there are.
#![tactic(auto)]

mod ending;
mod escaped;
mod input;
mod migration;
mod performing;

pub use performing::perform;
