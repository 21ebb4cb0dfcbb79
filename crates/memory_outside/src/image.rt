/// Which of the images that a crash may leave of a host in memory.
#[derive(Clone, Copy, Debug, PartialEq, Eq)]
pub enum ImageChoice {
    /// Each file is as of its last sync.
    Synced,
    /// Each file is as it reads.
    Written,
    /// Each write and each cut since a file's last sync took hold in part, by draws from this seed.
    Mixed(u32),
}
