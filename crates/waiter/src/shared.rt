// What the requests of one history share.
use row_pool::Rows;
use signal_board::board::Board;

/// What the requests of one history share: the rows of its held latches, and the signals of its requests.
pub struct Core {
    pub rows: Rows,
    pub board: Board,
}
