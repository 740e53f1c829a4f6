//! What is posted.

ghost use Rattle.std.specs.Prelude.{◌≡◌, [], ◌∷◌};
ghost use Rattle.squall_board.specs.Boards.{HasTaken, IsBoard, report_board};
ghost use Rattle.squall_cluster_inbox.specs.News.{news_board};

use squall_board::Delta;
use squall_report::Report;
use std::marker::Model;

/// A board that is posted, to be joined with the cluster's own board. Contracts see a letter as
/// that board.
///
/// A letter of one report holds the report alone, and no board of it is made: so the letter takes
/// no memory but its own place in the inbox.
#[derive(Drop)]
pub struct Letter {
    content: Content,
}

/// What a letter holds.
#[derive(Drop)]
enum Content {
    Delta(Delta),
    Report(Report),
}

impl Model for Letter {
    ghost use Rattle.squall_board.specs.Boards.{BoardValue};
    ghost use Rattle.squall_cluster_inbox.specs.News.{board_in};

    ghost Value = { BoardValue };

    ghost view = { λ letter. board_in letter.content };
}

/// What a letter brings: a delta, or one report.
#[derive(Clone, Copy)]
pub enum News<'a> {
    /// All that the delta tells.
    Delta(&'a Delta),
    /// One report.
    Report(&'a Report),
}

impl Letter {
    /// The letter with that board.
    pub fn new(delta: Delta) -> Letter
        ensures { result ≡ delta }
    {
        Letter {
            content: Content::Delta(delta),
        }
    }

    /// The letter of one report. Its board is that of the report.
    pub fn of(report: Report) -> Letter
        ensures value { result ≡ report_board report }
        ensures taken { HasTaken result (report ∷ []) }
        ensures board { IsBoard result }
    {
        // The proof learns that the report lies within its limits, so that its board is one.
        let _kind = report.kind();
        Letter {
            content: Content::Report(report),
        }
    }

    /// What it brings, which stays the letter's own.
    pub fn news(&self) -> News<'_>
        ensures { news_board result ≡ self.now }
    {
        match &self.content {
            Content::Delta(delta) => News::Delta(delta),
            Content::Report(report) => News::Report(report),
        }
    }

    /// Changes nothing: after it a proof knows that the letter is a board.
    pub fn known(&self)
        ensures { IsBoard self.now }
    {
        match &self.content {
            Content::Delta(delta) => delta.known(),
            Content::Report(report) => {
                let _kind = report.kind();
            }
        }
    }
}

/// A letter with the number of its sender.
#[derive(Drop)]
pub struct Parcel {
    /// The number of the sender.
    pub from: u64,
    /// The letter.
    pub letter: Letter,
}
