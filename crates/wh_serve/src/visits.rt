//! A client over one connection after another.

ghost use Rattle.std.specs.Prelude.{length};
ghost use Rattle.wh_serve.specs.Texts.{InEach, receipt_text};
ghost use Rattle.wh_serve.specs.Rows.{Session, Visits};

use crate::allowance::Allowance;
use crate::client::serve_client;
use crate::doors::{Connection, Doors};
use crate::served::{ServeFault, Served};
use crate::told::{entries_in_all, write_greeting};
use std::alloc::Global;
use std::io::{Read, Write};
use std::sync::Wait;
use wh_desk::{Desk, DeskName, Pass};
use wh_journal::Journal;
use wh_lines::Lines;
use wh_log::Form;
use wh_planner::Planner;
use wh_replay::ReplayFault;
use wh_scribe::{JournalName, Scribe};

/// A connection that is over.
struct Visited<W> {
    outcome: Result<Served, ServeFault>,
    writer: W,
}

/// Serves one connection: its first line is how many entries the client has in all, so that a client that comes again knows whether its
/// last command stands, and the tag, at which it begins.
fn serve_connection<
    N: DeskName,
    S: JournalName,
    J: Journal + Drop,
    H: Wait + Drop,
    P: Planner,
    X: Wait,
    R: Read + Drop,
    W: Write + Drop,
    D: Doors<R, W>,
>(
    rt: &X,
    alloc: Global,
    form: Form,
    may: Allowance,
    connection: Connection<R, W>,
    desk: &Desk<N, H, P>,
    scribe: &Scribe<N, S, J>,
    pass: &mut Pass<N>,
    spares: &mut Vec<P>,
    doors: &D,
    number: u32,
) -> Visited<W>
    ensures { InEach pass.new.known (λ history. Session may (length N.cells) P.fits_map P.slot_count N.origin.site.grid (receipt_text form N.origin history) (λ x. R.remaining x) (λ x. W.contents x) connection.reader connection.writer connection.tag result.outcome result.writer pass.old spares.old.items pass.new spares.new.items) }
{
    let Connection {
        reader,
        mut writer,
        tag,
    } = connection;
    let entries = entries_in_all(may.before, pass.len());
    match write_greeting(&mut writer, entries, tag) {
        Ok(()) => {
            let mut lines = Lines::new(reader);
            let outcome = serve_client(
                rt,
                alloc,
                form,
                may,
                &mut lines,
                &mut writer,
                desk,
                scribe,
                pass,
                spares,
                doors,
                number,
                tag,
            );
            Visited { outcome, writer }
        }
        Err(_) => Visited {
            outcome: Err(ServeFault::Cut(ReplayFault::Unwritten)),
            writer,
        },
    }
}

/// Serves one connection after another with the same pass and spares, until there are no more or the service is over. How many
/// there were.
pub(crate) fn serve_visits<
    N: DeskName,
    S: JournalName,
    J: Journal + Drop,
    H: Wait + Drop,
    P: Planner,
    X: Wait,
    R: Read + Drop,
    W: Write + Drop,
    D: Doors<R, W>,
>(
    rt: &X,
    alloc: Global,
    form: Form,
    may: Allowance,
    desk: &Desk<N, H, P>,
    scribe: &Scribe<N, S, J>,
    pass: &mut Pass<N>,
    spares: &mut Vec<P>,
    doors: &D,
    number: u32,
) -> u64
    ensures { InEach pass.new.known (λ history. Visits may (length N.cells) P.fits_map P.slot_count N.origin.site.grid (receipt_text form N.origin history) (λ x. R.remaining x) (λ x. W.contents x) pass.old spares.old.items pass.new spares.new.items result) }
{
    for connections in 0..u64::MAX {
        if doors.is_over() {
            return connections;
        }
        let Some(connection) = doors.open(number) else {
            return connections;
        };
        let visited = serve_connection(
            rt, alloc, form, may, connection, desk, scribe, pass, spares, doors, number,
        );
        let Visited { outcome, writer } = visited;
        doors.leave(number, &outcome, writer);
    }
    u64::MAX
}
