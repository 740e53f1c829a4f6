//! Laws: statements whose functions do nothing.

pub use crate::piece_laws::{
    no_items_no_pieces, one_list_of_pieces, pieces_fit_frames, pieces_have_frames,
    pieces_join_to_the_board,
};
pub use crate::repair_laws::{
    digests_list_the_board, one_repair, repair_of_own_digest_is_empty, repairs_complete,
};
