//! Boards that take news.

ghost use Rattle.std.specs.Prelude.{◌≡◌, OnOk, OnErr};
ghost use Rattle.squall_board.specs.Boards.{board_join};
ghost use Rattle.squall_table.specs.News.{news_board};

use squall_board::Board;
use squall_table::News;
use std::alloc::AllocError;

/// The board takes the news. An error means that an allocation failed, or that the count of an
/// issue's owners is full: the board is then unchanged.
pub(crate) fn take_news(board: &mut Board, news: News) -> Result<(), AllocError>
    ensures joined { OnOk result (board.new ≡ board_join board.old (news_board news.entry)) }
    ensures err { OnErr result (board.new ≡ board.old) }
{
    match news {
        News::Delta(delta) => board.merge(delta),
        News::Report(report) => board.take(report),
    }
}
