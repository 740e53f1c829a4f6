//! A table that is taken out and put back.

ghost use Rattle.std.specs.Prelude.{◌≡◌, ◌≢◌, []};

use squall_table::RouteTable;
use std::marker::Model;

/// The table of a router, or none while its patch is prepared.
///
/// Contracts see its legs, of which there are none if there is no table.
#[derive(Drop)]
pub(crate) struct Held {
    table: Option<RouteTable>,
}

impl Model for Held {
    ghost use Rattle.std.specs.Prelude.{List, [], unwrap_or};
    ghost use Rattle.squall_plan.specs.declared.range.PlanRange.{PlanRange};

    ghost Value = { List PlanRange };

    ghost view = { λ h. unwrap_or h.table [] };
}

impl Held {
    /// A table that is there.
    pub(crate) fn of(table: RouteTable) -> Held
        ensures { result ≡ table }
    {
        Held { table: Some(table) }
    }

    /// The table.
    pub(crate) fn get(&self) -> &RouteTable
        requires { self.now ≢ [] }
        ensures { result.now ≡ self.now }
    {
        match &self.table {
            Some(table) => table,
            None => unreachable!(),
        }
    }

    /// Takes the table out.
    pub(crate) fn take(&mut self) -> RouteTable
        requires { self.old ≢ [] }
        ensures { result ≡ self.old }
    {
        match self.table.take() {
            Some(table) => table,
            None => unreachable!(),
        }
    }

    /// Puts a table in.
    pub(crate) fn put(&mut self, table: RouteTable)
        ensures { self.new ≡ table }
    {
        self.table = Some(table);
    }
}
