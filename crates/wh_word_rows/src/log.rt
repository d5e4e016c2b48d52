//! Logs from outside: worked ones, each with one change, and a judge of its own.
ghost use Rattle.std.specs.Prelude.{◌≡◌, ◌+◌, ◌<◌};
ghost use Rattle.std.proofs.Common.{sym, ◌∙◌};

use std::alloc::{AllocError, Global};
use std::test::Fail;
use wh_event::Entry;
use wh_log::{
    Followed, Form, Judge, Log, LogFault, NoMemory, follow, log_text, read_log, tell, written_again,
};

const LOG: &[u8] =
    b"wlog 1\nstart 0 slots 4 4\n0 submit x A B = accepted 0\n0 token 0 = took 0 path 0,1 1,1 1,0 1,1 2,1 3,1 3,0\n0 tick = clock 1 picked 0 dropped 0\nend 3\n";

const LOG_IN_TWO: &[u8] =
    b"wlog 2\nstart 0 slots 4 4\n0 submit x A B = accepted 0\n0 token 0 = took 0 path 0,1 1,1 1,0 1,1 2,1 3,1 3,0\n0 tick = clock 1 picked 0 dropped 0\nend 3\n";

const ALL: &[u8] =
    b"wlog 2\nstart 1000000000 slots 2 64\n63 submit x A B C D E F G H = accepted 999999999\n0 token 1 = rested\n0 token 999999999 = refused E4 999999999\n0 token 0 = parked P-1 path 4095,0 4095,0 4094,0\n0 token 0 = refused E5 18446744073709551615\n0 tick = clock 1000000000 picked 0 dropped 7\n5 replace 0 none = refused E10\n5 replace 0 foreign = refused E9\n5 replace 0 fits 100 = replaced 100\n5 close = closed\n5 close = refused E8\n5 submit x Z A = refused E1 Z\n5 submit x A P1 = refused E2 P1\n5 submit x A B = refused E3\n5 token 0 = refused E6\n5 tick = refused E7\nend 16\n";

/// The line of the fault, 0 where there is none.
fn fault(alloc: Global, text: &[u8]) -> u64 {
    match read_log(alloc, text) {
        Ok(_) => 0,
        Err(LogFault::At { line }) => line,
        Err(LogFault::NoMemory) => 1_000_000,
    }
}

/// Texts, each with the line of its fault, or 0.
const LOGS: [(&[u8], u64); 19] = [
    (LOG, 0),
    (LOG_IN_TWO, 0),
    (ALL, 0),
    (b"wlog 2\nstart 0 slots 4\nend 0\n", 0),
    (b"", 1),
    (b"wlog 1", 1),
    (b"wlog 3\nstart 0 slots 4\nend 0\n", 1),
    (b"wlog 2\r\nstart 0 slots 2\nend 0\n", 1),
    (b"wlog 2\n", 2),
    (b"wlog 2\nstart 0 slots 1\nend 0\n", 2),
    (b"wlog 2\nstart 0 slots\nend 0\n", 2),
    (b"wlog 2\nstart 1000000001 slots 2\nend 0\n", 2),
    (b"wlog 2\nstart 00 slots 2\nend 0\n", 2),
    (b"wlog 2\nstart 0 slots 2\n", 3),
    (b"wlog 2\nstart 0 slots 2\nend 0", 3),
    (b"wlog 2\nstart 0 slots 2\nend 1\n", 3),
    (b"wlog 2\nstart 0 slots 2\nend 0\nx\n", 4),
    (b"wlog 2\nstart 0 slots 2\nend 0\nx", 4),
    (b"wlog 2\nstart 0 slots 2\nend 0\n\n", 4),
];

fn have_faults(alloc: Global, rows: &[(&[u8], u64)]) -> bool {
    for (text, line) in rows {
        if fault(alloc, text) != *line {
            return false;
        }
    }
    true
}

#[test]
fn the_log_and_its_changes(rt: HostRuntime) {
    assert!(rt; have_faults(rt.alloc(), &LOGS));
}

/// Logs of one entry, each with the line of its fault, or 0.
const ENTRIES: [(&[u8], u64); 17] = [
    (
        b"wlog 1\nstart 0 slots 4\n0 submit  x A B = accepted 0\nend 1\n",
        3,
    ),
    (
        b"wlog 1\nstart 0 slots 4\n64 submit x A B = accepted 0\nend 1\n",
        3,
    ),
    (
        b"wlog 1\nstart 0 slots 4\n0 submit x A C B = accepted 0\nend 1\n",
        3,
    ),
    (
        b"wlog 2\nstart 0 slots 4\n0 submit x A C B = accepted 0\nend 1\n",
        0,
    ),
    (
        b"wlog 2\nstart 0 slots 4\n0 submit x A = accepted 0\nend 1\n",
        3,
    ),
    (
        b"wlog 2\nstart 0 slots 4\n0 submit x A B A B A B A B A = accepted 0\nend 1\n",
        3,
    ),
    (b"wlog 2\nstart 0 slots 4\n0 tick = rested \nend 1\n", 3),
    (b"wlog 2\nstart 0 slots 4\n 0 tick = rested\nend 1\n", 3),
    (b"wlog 2\nstart 0 slots 4\n0 tick = rested\n\nend 1\n", 4),
    (b"wlog 2\nstart 0 slots 4\n0 tick = accepted 01\nend 1\n", 3),
    (
        b"wlog 2\nstart 0 slots 4\n0 tick = accepted 1000000000\nend 1\n",
        3,
    ),
    (
        b"wlog 2\nstart 0 slots 4\n0 tick = clock 1000000001 picked 0 dropped 0\nend 1\n",
        3,
    ),
    (
        b"wlog 2\nstart 0 slots 4\n0 token 0 = took 0 path 0,0 1,1\nend 1\n",
        3,
    ),
    (
        b"wlog 2\nstart 0 slots 4\n0 token 0 = took 0 path 4096,0\nend 1\n",
        3,
    ),
    (
        b"wlog 2\nstart 0 slots 4\n0 token 0 = took 0 path\nend 1\n",
        3,
    ),
    (
        b"wlog 2\nstart 0 slots 4\n0 token 0 = took 0 path 4095,4095\nend 1\n",
        0,
    ),
    (
        b"wlog 2\nstart 0 slots 4\n0 token 0 = refused E5 18446744073709551616\nend 1\n",
        3,
    ),
];

#[test]
fn one_entry_changed(rt: HostRuntime) {
    assert!(rt; have_faults(rt.alloc(), &ENTRIES));
}

/// Whether a log of this clock, these slots and this number of entries is read from a text, and written as another.
fn is_read(
    alloc: Global,
    text: &[u8],
    head: (u32, &[u32]),
    entries: usize,
    written: &[u8],
) -> bool {
    match read_log(alloc, text) {
        Ok(log) => {
            let is_read = has_head(&log, head, entries) && is_written(alloc, &log, written);
            drop(log);
            is_read
        }
        Err(_) => false,
    }
}

/// Whether a log has this clock, these slots and this number of entries.
fn has_head(log: &Log, head: (u32, &[u32]), entries: usize) -> bool {
    log.clock() == head.0 && log.slots() == head.1 && log.entries().len() == entries
}

/// Whether the text of a log is this.
fn is_written(alloc: Global, log: &Log, written: &[u8]) -> bool {
    match log_text(alloc, log.clock(), log.slots(), log.entries()) {
        Ok(text) => text.as_slice() == written,
        Err(_) => false,
    }
}

fn are_written(alloc: Global) -> bool {
    let begun = (0, [4, 4].as_slice());
    let last = (1_000_000_000, [2, 64].as_slice());
    is_read(alloc, LOG, begun, 3, LOG_IN_TWO) && is_read(alloc, ALL, last, 16, ALL)
}

#[test]
fn written_as_it_was_read(rt: HostRuntime) {
    assert!(rt; are_written(rt.alloc()));
}

/// A reply in this form, and a line feed, come to others, as if the greatest clock stood before it. Whether it could be told.
fn add_reply(form: Form, told: &mut Vec<u8>, place: u64, entry: &Entry) -> bool {
    tell(form, told, place, 1_000_000_000, &entry.reply).is_ok() && told.push(b'\n').is_ok()
}

/// The replies of a log in this form, a line for each, come to a text. Whether all could be told.
fn add_replies(form: Form, told: &mut Vec<u8>, log: &Log) -> bool {
    for (place, entry) in log.entries().iter().enumerate() {
        if !add_reply(form, told, place as u64, entry) {
            return false;
        }
    }
    true
}

/// Forms and logs, each with the replies that are told.
const TOLD: [(Form, &[u8], &[u8]); 4] = [
    (
        Form::Short,
        LOG,
        b"accepted 0\ntook 0 end 6\nclock 1 picked 0 dropped 0\n",
    ),
    (
        Form::Full,
        LOG,
        b"accepted 0\ntook 0 path 0,1 1,1 1,0 1,1 2,1 3,1 3,0\nclock 1 picked 0 dropped 0\n",
    ),
    (
        Form::Placed,
        LOG,
        b"0 1000000000 accepted 0\n1 1000000000 took 0 path 0,1 1,1 1,0 1,1 2,1 3,1 3,0\n2 1000000000 clock 1 picked 0 dropped 0\n",
    ),
    (
        Form::Full,
        ALL,
        b"accepted 999999999\nrested\nrefused E4 999999999\nparked P-1 path 4095,0 4095,0 4094,0\nrefused E5 18446744073709551615\nclock 1000000000 picked 0 dropped 7\nrefused E10\nrefused E9\nreplaced 100\nclosed\nrefused E8\nrefused E1 Z\nrefused E2 P1\nrefused E3\nrefused E6\nrefused E7\n",
    ),
];

/// Whether the replies of a log are told so.
fn are_replies(alloc: Global, form: Form, log: &Log, wanted: &[u8]) -> bool {
    let mut told = Vec::new(alloc);
    let are_told = add_replies(form, &mut told, log) && told.as_slice() == wanted;
    drop(told);
    are_told
}

/// Whether a text is a log whose replies are told so.
fn are_told(alloc: Global, form: Form, text: &[u8], wanted: &[u8]) -> bool {
    match read_log(alloc, text) {
        Ok(log) => {
            let are_told = are_replies(alloc, form, &log, wanted);
            drop(log);
            are_told
        }
        Err(_) => false,
    }
}

fn are_all_told(alloc: Global) -> bool {
    for (form, text, wanted) in TOLD.iter() {
        if !are_told(alloc, *form, text, wanted) {
            return false;
        }
    }
    true
}

#[test]
fn told_in_few_words_and_in_all(rt: HostRuntime) {
    assert!(rt; are_all_told(rt.alloc()));
}

/// Takes two entries, and refuses a third.
#[derive(Drop)]
struct Two {
    taken: u32,
}

impl Judge for Two {
    ghost opens = { λ old clock slots new. new ≡ record { taken = 0 } };

    ghost steps = { λ old entry new. (old.taken < 2) × (new ≡ record { taken = old.taken + 1 }) };

    fn open(&mut self, _alloc: Global, _clock: u32, _slots: Vec<u32>) -> Result<bool, NoMemory> {
        self.taken = 0;
        Ok(true)
    }

    fn step(&mut self, _alloc: Global, _entry: Entry) -> Result<bool, NoMemory> {
        if self.taken >= 2 {
            return Ok(false);
        }
        self.taken += 1;
        Ok(true)
    }

    ghost one_opening = { λ old clock slots a b p q. p ∙ sym q };

    ghost one_step = { λ old entry a b p q. p.1 ∙ sym q.1 };
}

const SHORT: &[u8] = b"wlog 2\nstart 0 slots 4\n0 tick = rested\n0 close = closed\nend 2\n";

fn is_followed(
    alloc: Global,
    judge: &mut Two,
    text: &[u8],
    wanted: Followed,
) -> Result<bool, NoMemory> {
    Ok(follow(alloc, judge, text)? == wanted)
}

/// Whether a log is bad where its third entry is refused, and a shorter one, which the judge begins anew, is whole.
fn are_followed(alloc: Global) -> Result<bool, NoMemory> {
    let mut judge = Two { taken: 7 };
    let is_refused = is_followed(alloc, &mut judge, LOG, Followed::Bad { line: 5 })?;
    let is_whole = is_followed(alloc, &mut judge, SHORT, Followed::Whole { entries: 2 })?;
    Ok(is_refused && is_whole && judge.taken == 2)
}

#[test]
fn told_to_a_judge(rt: HostRuntime) -> Result<(), Fail> {
    assert!(rt; are_followed(rt.alloc())?);
    Ok(())
}

/// Whether a log of clock 7 and slots 4 and 64, with no entry, is the same once it is written and read.
fn is_read_again(alloc: Global) -> Result<bool, AllocError> {
    let slots = vec![in alloc; 4, 64]?;
    let log = Log::new(7, slots, Vec::new(alloc));
    let written = written_again(alloc, &log);
    drop(log);
    match written {
        Ok(again) => {
            let is_same = has_head(&again, (7, [4, 64].as_slice()), 0);
            drop(again);
            Ok(is_same)
        }
        Err(_) => Ok(false),
    }
}

#[test]
fn read_again(rt: HostRuntime) -> Result<(), Fail> {
    assert!(rt; is_read_again(rt.alloc())?);
    Ok(())
}
