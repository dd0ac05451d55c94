/// What the last file of a journal is: its number, how many bytes it has, and their digest.
#[derive(Clone, Copy, Debug, PartialEq, Eq)]
pub struct LastFile {
    pub number: u64,
    pub length: u64,
    pub digest: u64,
}
