//! The top calls: one reads a script from a source, runs its statements over a lake by up to
//! sixteen sessions, and writes their replies to a sink; the other reads a script and writes how
//! many statements it has.
//!
//! What the clauses say: where `lake_run` answers Done, the chronicle of its lake is legal
//! (`legal`), follows the script that the source gave (`follows`), and has exactly the text that
//! was written (`text`). Usage comes exactly where the words are no command (`usage`), and reads
//! nothing (`unread`). A fault of the source or the sink is answered only where it is counted there
//! (`read_fault`, `write_fault`), TooLong only past the limit of bytes (`too_long`), and a refusal
//! only for bytes that are refused so (`refused`). At a write fault the chronicle follows the
//! statements up to the one whose reply was cut (`halted`); at want of memory a beginning of the
//! text of first statements was written (`no_memory`). Before a run's first statement nothing is
//! written (`quiet`), the ports come back as they were (`ports`), and where nothing fails a script
//! within the limit is run to its end (`completes`). `lake_check` says the same of reading alone.
//! Laws: `places_ascend` (the places of a script's statements ascend) and `bytes_have_one_text`
//! (where nothing fails what is printed follows from the bytes). `first_example` works the
//! definitions through on a script. Nothing says when memory is wanted.
#![tactic(auto)]

mod checking;
mod examples;
mod laws;
mod reading;
mod running;
mod scripts;
mod sessions;
mod status;
mod words;
mod writing;

pub use checking::lake_check;
pub use examples::first_example;
pub use lake_core::LakeState;
pub use laws::{bytes_have_one_text, places_ascend};
pub use running::{Ended, lake_run};
pub use sql_parser::{ParseKind, ScriptBad};
pub use status::{Status, status_text};
