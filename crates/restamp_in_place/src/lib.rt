//! Replaces a file by its processed lines. A stop at any moment leaves the old file or the new one whole.
#![tactic(auto)]

mod folder;
mod laws;
mod lines;
mod names;
mod replace_errors;
mod replacing;
mod target;

pub use folder::{Failing, Folder, Original};
pub use laws::{law_now, law_old_or_new};
pub use lines::{FileTransform, Made};
pub use names::backup_name;
pub use replace_errors::{Step, Unreplaced, write_unreplaced};
pub use replacing::replace;
pub use target::{Target, replace_file};
