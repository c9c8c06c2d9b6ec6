// Where a store is.
use crate::text::Text;

/// Where a store is kept.
#[derive(Debug, Drop)]
pub enum Home {
    /// In memory, as long as the command runs.
    Memory,
    /// In the files of a folder.
    Folder(Text),
}
