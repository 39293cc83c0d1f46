// The keys of the standard security handler: the padded password, the file key, the entry U and the keys of objects.

#![tactic(auto)]

mod file;
mod inputs;
mod key;
mod object;
mod password;
mod size;
mod user;

pub use file::file_key;
pub use inputs::{Inputs, Revision, RevisionError};
pub use key::Key;
pub use object::object_key;
pub use password::pad_password;
pub use size::KeySize;
pub use user::{agrees_with, laws, user_entry};
