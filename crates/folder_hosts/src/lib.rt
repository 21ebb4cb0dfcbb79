//! A host over a data folder and the standard output, and a shelf over a folder.
#![tactic(auto)]

mod boot;
mod data_folder;
mod data_paths;
mod folder_host;
mod folder_shelf;
mod identity;
mod moment;
mod named_files;
mod opening;
mod own_files;
mod placements;
mod transfer;
mod trouble;

pub use boot::{BootId, SyncMark, boot_id, has_mark, keep_mark, sync_mark};
pub use data_paths::{data_path, file_number};
pub use folder_host::FolderHost;
pub use folder_shelf::FolderShelf;
pub use moment::unix_seconds;
pub use placements::Placement;
pub use transfer::{WriterAt, read_full, write_full};
