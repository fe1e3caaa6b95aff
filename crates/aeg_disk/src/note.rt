// What a disk in memory notes of a write or a sync.
/// Where it wrote, how many bytes, the disk's length before it, how many bytes it replaced, whether a crash after it leaves
/// what a read gives, as after a sync, and whether a sync followed it at once. A number past 32 bits can't be noted.
#[derive(Clone, Copy)]
pub struct Note {
    pub place: u32,
    pub count: u32,
    pub before: u32,
    pub replaced: u32,
    pub settles: bool,
    pub synced: bool,
}
