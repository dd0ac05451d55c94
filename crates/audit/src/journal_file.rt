/// A journal as it was read from a file.
#[derive(Drop)]
pub struct JournalFile {
    pub name: String,
    pub text: Vec<u8>,
}
