//! How a cluster ends.

ghost use Rattle.std.specs.Prelude.{◌≡◌, [], ℕ, length, All, IfOk, OnOk, OnErr, IfErr};
ghost use Rattle.squall_cluster_inbox.specs.Inbox.{of, posted};
ghost use Rattle.squall_cluster_inbox.specs.Ends.{vouching};
ghost use Rattle.squall_cluster_inbox.specs.Letters.{letters_of};
ghost use Rattle.squall_cluster.specs.Owners.{IsBoardOfPosted, SameSenders};
ghost use Rattle.squall_cluster.specs.CloseFaults.{owner_of, spent_of};

use crate::owner::Owner;
use squall_board::Board;
use squall_cluster_inbox::{Constants, Spent};
use std::alloc::AllocError;
use std::sync::Wait;

/// Why a cluster is not closed. What comes back closes it at another try.
#[derive(Drop)]
pub enum CloseFault<K: Constants, R: Wait + Drop> {
    /// An allocation failed.
    NoMemory {
        /// The senders that are not joined to the owner yet.
        spent: Vec<Spent>,
        /// The owner. What it took so far is published, but for one letter that is in its hand.
        owner: Owner<K, R>,
    },
}

/// Joins each of them to the owner.
fn join_all<K: Constants, R: Wait + Drop>(owner: &mut Owner<K, R>, spent: &mut Vec<Spent>)
    requires { All (λ s. s.inbox ≡ owner.old.inbox) spent.old.items }
    ensures owner { owner.new ≡ record owner.old { vouched = vouching spent.old.items owner.old.vouched } }
    ensures spent { spent.new.items ≡ [] }
{
    if let Some(one) = spent.pop() {
        join_all(owner, spent);
        owner.join(one);
    }
}

/// Takes and publishes all that the inbox holds. It fails (memory) with a letter in hand.
fn drain<K: Constants, R: Wait + Drop>(owner: &mut Owner<K, R>) -> Result<(), AllocError>
    requires { length owner.old.vouched ≡ owner.old.made }
    ensures same { SameSenders owner.old owner.new }
    ensures published { OnOk result (owner.new.published ≡ letters_of owner.new.taken) }
    ensures whole { OnOk result ((p : ℕ) → of p owner.new.taken ≡ posted p owner.new.vouched) }
    ensures failed { OnErr result (length owner.new.hand ≡ 1) }
{
    loop {
        let turn = owner.turn()?;
        if !turn.took {
            return Ok(());
        }
        // A count of 64 bits holds the number of letters published, so there is a last one.
        owner.known();
    }
}

/// Closes a cluster whose senders have all ended. It answers the opening board, joined with all letters
/// that were posted. Each letter was taken once, and those of each sender in the order of its posts.
/// Seats see nothing from then on.
///
/// The senders are all that were made with the owner, but for those that an earlier call joined to it.
/// The call fails (memory) with a letter in the owner's hand. What comes back, given to another call,
/// closes the cluster with the same letters.
///
/// It waits for seats that are looking.
pub fn close<K: Constants, R: Wait + Drop>(
    mut spent: Vec<Spent>,
    mut owner: Owner<K, R>,
) -> Result<Board, CloseFault<K, R>>
    requires inbox { All (λ s. s.inbox ≡ owner.inbox) spent.items }
    requires all_senders { length (vouching spent.items owner.vouched) ≡ owner.made }
    ensures board_of_posted { IfOk result (λ board. IsBoardOfPosted K.allowed K.opening (vouching spent.items owner.vouched) board) }
    ensures same_owner { IfErr result (λ fault. ((owner_of fault).inbox ≡ owner.inbox) × ((owner_of fault).made ≡ owner.made)) }
    ensures same_inbox { IfErr result (λ fault. All (λ s. s.inbox ≡ (owner_of fault).inbox) (spent_of fault)) }
    ensures none_lost { IfErr result (λ fault. vouching (spent_of fault) (owner_of fault).vouched ≡ vouching spent.items owner.vouched) }
    ensures failed { IfErr result (λ fault. length (owner_of fault).hand ≡ 1) }
{
    join_all(&mut owner, &mut spent);
    match drain(&mut owner) {
        Ok(()) => {
            owner.known();
            Ok(owner.into_board())
        }
        Err(_) => Err(CloseFault::NoMemory { spent, owner }),
    }
}
