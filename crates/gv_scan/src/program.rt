/// The fetched dwords: the commands of the ring from the head to the tail, and the copies of all
/// privileged batches that they start. A start of a privileged batch holds the byte offset of its copy
/// in `batches`.
#[derive(Drop)]
pub struct Program {
    pub ring: Vec<u32>,
    pub batches: Vec<u32>,
}
