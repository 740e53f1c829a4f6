//! The reports that nodes make.

ghost use Rattle.std.specs.Prelude.{◌≡◌, ◌≤◌, ◌-◌, false, length, take, drop, IfOk, OnOk};
ghost use Rattle.squall_board.specs.Boards.{empty_board};
ghost use Rattle.squall_world.specs.Nets.{AreWithin, is_issue, news_to, reports_to};

use crate::counts::count_at;
use crate::peer::Peer;
use squall_board::Board;
use squall_report::{Report, ReportKind};
use std::alloc::{AllocError, Global};

/// The same report once more. It issues nothing, and so shares nothing.
pub(crate) fn again(report: &Report) -> Report
    requires { is_issue report.now ≡ false }
    ensures { result ≡ report.now }
{
    let made = match report.kind() {
        ReportKind::Loaded {
            number,
            sub,
            part,
            span,
        } => Report::loaded(number, sub, part, span),
        ReportKind::Done { number, sub, part } => Report::done(number, sub, part),
        ReportKind::Opened { number, sub } => Report::opened(number, sub),
        ReportKind::Issued { .. } => unreachable!(),
    };
    made.unwrap()
}

/// Takes all of the reports.
fn take_all(board: &mut Board, reports: &[Report]) -> Result<(), AllocError>
    ensures { OnOk result (board.new ≡ reports_to board.old reports.now) }
{
    for report in reports {
        board.take(report)?;
    }
    Ok(())
}

/// Takes the node's reports from index `from` to before index `to`.
fn take_between(board: &mut Board, peer: &Peer, from: usize, to: usize) -> Result<(), AllocError>
    requires from { from ≤ to }
    requires to { to ≤ length peer.now.reports }
    ensures { OnOk result (board.new ≡ reports_to board.old (take (to - from) (drop from peer.now.reports))) }
{
    take_all(board, &peer.reports[from..to])
}

/// The board of the nodes' reports from the first counts up to the second ones.
pub(crate) fn news(
    alloc: Global,
    peers: &[Peer],
    known: &[usize],
    counts: &[usize],
) -> Result<Board, AllocError>
    requires { AreWithin peers.now counts.now }
    ensures { IfOk result (λ board. board ≡ news_to empty_board peers.now known.now counts.now) }
{
    let mut board = Board::new(alloc);
    for at in 0..counts.len() {
        let (from, to) = (count_at(known, at), counts[at]);
        if from < to {
            take_between(&mut board, &peers[at], from, to)?;
        }
    }
    Ok(board)
}
