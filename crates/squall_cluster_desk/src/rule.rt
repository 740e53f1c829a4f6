//! The two copies of the desk, under a rule, and the kinds of its steps.

ghost use Rattle.std.specs.Prelude.{[]};
ghost use Rattle.squall_cluster_desk.specs.Desk.{Shows, Looks};

use crate::shown::{Entry, Shown};
use crossbeam_utils::rule::{Outcome, Protocol};
use left_right::reader::{Factory, Reader};
use left_right::writer::Writer;
use squall_cluster_inbox::{Constants, Letter};
use std::collections::LinkedList;
use std::marker::PhantomData;

/// What a place knows: the list that was published at its last look. No value of it is made.
pub type Sight = LinkedList<Letter>;

/// The rule: the router that is shown has taken the published list and nothing else, and what each
/// place knows begins that list.
pub struct Published<K> {
    of: PhantomData<K>,
}

impl<K: Constants> Protocol<Shown, Sight> for Published<K> {
    ghost holds = { λ x. Shows K.allowed K.book K.first K.opening x.router x.prefix };

    ghost first = { [] };
}

/// A look of a reader, which then knows the published list, and a publication, after which the writer
/// knows it.
pub struct Looking<K> {
    of: PhantomData<K>,
}

impl<K: Constants> Outcome<Shown, Sight> for Looking<K> {
    ghost then = { λ v x y w. Looks K.allowed K.book K.first K.opening v y.router y.prefix w };
}

/// A reader of the desk.
pub type DeskReader<K> = Reader<Shown, Sight, Published<K>>;

/// The writer of the desk.
pub type DeskWriter<K> = Writer<Shown, Entry, Sight, Published<K>>;

/// What makes readers of the desk.
pub type DeskFactory<K> = Factory<Shown, Sight, Published<K>>;
