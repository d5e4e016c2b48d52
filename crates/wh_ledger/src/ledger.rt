//! The rows of all clients.

ghost use Rattle.std.specs.Prelude.{◌≡◌, ℕ, IfOk, OnOk, List, All};
ghost use Rattle.wh_tasks.specs.declared.task.Task.{Task};
ghost use Rattle.wh_ledger.specs.Ledgers.{clients_of, rows_of};
ghost use Rattle.wh_ledger.specs.Places.{IsWithin, HasPlace};

use crate::row::Row;
use indexmap::IndexSet;
use std::alloc::{AllocError, Global};
use std::marker::Model;
use wh_tasks::TaskSet;
use wh_text::Name;

/// What the tasks of each client have come to: one row for each client, in order of its first task.
#[derive(Drop)]
pub struct DeliveryLedger {
    rows: Vec<Row>,
}

impl Model for DeliveryLedger {
    ghost use Rattle.std.specs.Prelude.{List};
    ghost use Rattle.wh_ledger.specs.declared.row.Row.{Row as Line};

    ghost Value = { List Line };

    ghost view = { λ ledger. ledger.rows.items };
}

/// Where the row of a client stands. Where it has none, one without a task is added.
fn row_place(
    clients: &mut IndexSet<Name>,
    rows: &mut Vec<Row>,
    client: &Name,
) -> Result<usize, AllocError>
    ensures place { IfOk result (λ place. (tasks : List Task) → clients.old.keys ≡ clients_of tasks → rows.old.items ≡ rows_of tasks
        → HasPlace tasks client.now clients.new.keys rows.new.items place) }
    ensures within { OnOk result ((n : ℕ) → All (IsWithin n) rows.old.items → All (IsWithin n) rows.new.items) }
{
    let (place, is_new) = clients.insert_full(client.copy())?;
    if is_new {
        rows.push(Row::none(client.copy()))?;
    }
    Ok(place)
}

impl DeliveryLedger {
    /// The ledger of the tasks, in one pass over them, with one look-up for each. It takes memory for the clients alone; fails
    /// when out of memory.
    pub fn of(alloc: Global, tasks: &TaskSet) -> Result<DeliveryLedger, AllocError>
        ensures { IfOk result (λ ledger. ledger ≡ rows_of tasks.now.tasks) }
    {
        let mut clients = IndexSet::new(alloc);
        let mut rows: Vec<Row> = Vec::new(alloc);
        for n in 0..tasks.len() {
            let task = tasks.task(n);
            let place = row_place(&mut clients, &mut rows, &task.client)?;
            rows[place].count(task);
        }
        Ok(DeliveryLedger { rows })
    }

    /// The rows, in order of the clients' first tasks.
    pub fn rows(&self) -> &[Row]
        ensures { result.now ≡ self.now }
    {
        &self.rows
    }
}
