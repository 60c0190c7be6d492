//! Files and folders that are this process's own: for its user alone, or held by a lock that the system releases when
//! the process exits.

mod appended;
mod folder;
mod lock;
mod private;

pub use appended::open_appended;
pub(crate) use folder::check_data;
pub use folder::check_folder;
pub use lock::LockFile;
pub(crate) use lock::lock_file;
pub use private::make_private;
