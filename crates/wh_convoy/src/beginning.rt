//! The file of arrivals is begun, or goes on after its whole lines.
#![tactic(auto)]

ghost use Rattle.std.specs.Prelude.{◌≡◌, ◌+◌, ◌++◌, ◌-◌, ◌≤◌, None, true, IfErr, OnErr, OnOk, length, take};
ghost use Rattle.hex.specs.Hex.{encode_lower};
ghost use Rattle.wh_convoy.specs.Beginning.{BeginsArrivals, LeavesArrivals, first_line, front_line};

use arrayvec::ArrayVec;
use sha2::{Digest, Sha256};
use wh_continue::{KeepFault, LogFile, Preface, cut_behind, write_alone};
use wh_event::put_number;

/// Writes a text at the end.
fn put(line: &mut ArrayVec<u8, 96>, text: &[u8])
    requires { length line.old.items + length text.now ≤ 96 }
    ensures { line.new.items ≡ line.old.items ++ text.now }
{
    match line.try_extend_from_slice(text) {
        Ok(()) => {}
        Err(_) => unreachable!(),
    }
}

/// The digits of 32 bytes.
fn digits_of(digest: [u8; 32]) -> [u8; 64]
    ensures digits { result ≡ encode_lower digest }
    ensures count { length result ≡ 64 }
{
    let mut digits = [0; 64];
    let written = hex::encode_to_slice(digest, &mut digits);
    prove!(written.is_ok());
    digits
}

/// The line that tells of a text how many bytes it has, and their SHA-256.
fn front_line(text: &[u8]) -> ArrayVec<u8, 96>
    ensures { result.items ≡ front_line text.now }
{
    let mut head = ArrayVec::new();
    put_number(&mut head, b"front ", text.len() as u64);
    let digits = digits_of(Sha256::digest(text));
    let mut line = ArrayVec::new();
    put(&mut line, head.as_slice());
    put(&mut line, b" ");
    put(&mut line, &digits);
    put(&mut line, b"\n");
    line
}

/// A front's text before its last line, `begin`.
fn before_begin(text: &[u8]) -> &[u8]
    ensures { result.now ≡ take (length text.now - 6) text.now }
{
    &text[..text.len().saturating_sub(6)]
}

/// The line that says what is so of each run: vehicle 0 has arrived at step 0.
fn first_report() -> ArrayVec<u8, 96>
    ensures { result.items ≡ first_line None }
{
    let mut line = ArrayVec::new();
    put(&mut line, b"at 0 0\n");
    line
}

/// The line with which the file of arrivals beside a log begins. Where the log begins with two lines it is `at 0 0`; where it begins with a front
/// it is `front BYTES SHA256`, which tells the front's text before its line `begin`.
pub fn first_line(preface: &Option<Preface>) -> ArrayVec<u8, 96>
    ensures { result.items ≡ first_line preface.now }
{
    match preface {
        None => first_report(),
        Some(preface) => front_line(before_begin(preface.text.as_slice())),
    }
}

/// Cuts the file to the given number of bytes, which are whole lines, and syncs it. Where these are none, it is begun with its first
/// line. So a missing file is told from one that is begun.
pub fn begin_arrivals<L: LogFile>(file: &mut L, first: &[u8], bytes: usize) -> Result<(), KeepFault>
    ensures ok { OnOk result (BeginsArrivals first.now bytes (L.contents file.old) (L.contents file.new)) }
    ensures synced { OnOk result (L.synced file.new ≡ L.contents file.new) }
    ensures fault { IfErr result (λ fault. fault ≡ KeepFault.Unkept) }
    ensures left { OnErr result (LeavesArrivals first.now bytes (L.contents file.old) (L.contents file.new)) }
    ensures failed { OnErr result (L.failed file.new ≡ true) }
{
    if bytes == 0 {
        write_alone(file, first)
    } else {
        cut_behind(file, bytes)
    }
}
