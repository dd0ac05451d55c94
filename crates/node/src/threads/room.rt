use std::alloc::Global;

/// How many bytes the evaluation of one command may take.
const FOR_ONE: usize = 1_024;

/// How many bytes are asked for in one piece. Larger pieces would come from elsewhere.
const PIECE: usize = 122_880;

/// How many pieces are asked for at most.
const PIECES: usize = 300;

/// Asks for the room that so many evaluations may take, and gives it back. What is then made gets it from the allocator of this thread, which needn't ask the system for each page, while it lets no other thread get one. Without memory for it, it isn't asked for.
pub(crate) fn make_ready(alloc: Global, evaluations: usize) {
    let bytes = evaluations.saturating_mul(FOR_ONE);
    let count = (bytes / PIECE).min(PIECES);
    let mut pieces: Vec<Vec<u8>> = Vec::new(alloc);
    for _piece in 0..count {
        let Ok(piece) = Vec::with_capacity(alloc, PIECE) else {
            return;
        };
        if pieces.push(piece).is_err() {
            return;
        }
    }
}
