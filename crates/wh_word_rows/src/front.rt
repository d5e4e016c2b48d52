//! Worked fronts, from outside.

use std::alloc::Global;
use std::test::*;
use wh_front::{FrontFault, front_text, read_front};

const FRONT: &[u8] =
    b"wlog 3\nafter 1 805 4be10123456789abcdef0123456789abcdef0123456789abcdef0123456789ab\nrules ends homes age 600\nstate 11 closed edited\nentries 0:12 63:400\nagents 2\nagent slots 4 path 3,1\nagent slots 4294967295 path 65535,0 65535,1\ntasks 4\ntask 0 x 0 agent 0 visits 5 9 stops 1,0 7,0\ntask 63 x-Y_1 0 open stops 4,0 3,2\ntask 5 x 1000000000 agent 999999999 stops 1,1 1,1\ntask 5 x 1 agent 1 visits 1 stops 0,0 1,0 2,0 3,0 4,0 5,0 6,0 7,0\nbegin\n";

const SHORT: &[u8] =
    b"wlog 3\nafter 0\nstate 0 open whole\nentries\nagents 1\nagent slots 0 path 0,0\ntasks 0\nbegin\n";

/// The line of the fault, 0 where there is none, and 1,000,000 where the front is not written as it was.
fn fault(alloc: Global, text: &[u8], rest: &[u8]) -> u64 {
    match read_front(alloc, text) {
        Ok(read) => {
            let Ok(again) = front_text(alloc, &read.front) else {
                return 1_000_000;
            };
            let length = text.len().saturating_sub(rest.len());
            if read.rest == rest && again.as_slice() == &text[..length] {
                0
            } else {
                1_000_000
            }
        }
        Err(FrontFault::At { line }) => line,
        Err(FrontFault::NoMemory) => 1_000_000,
    }
}

/// Texts, what follows the front, and the line of the fault or 0.
const FRONTS: [(&[u8], &[u8], u64); 22] = [
    (FRONT, b"", 0),
    (SHORT, b"", 0),
    (
        b"wlog 3\nafter 0\nrules age 1\nstate 0 open stopped\nentries 7:18446744073709551615\nagents 1\nagent slots 0 path 0,0\ntasks 0\nbegin\n0 tick",
        b"0 tick",
        0,
    ),
    (b"", b"", 1),
    (b"wlog 3", b"", 1),
    (b"wlog 2\n", b"", 1),
    (b"wlog 3\nafter 00\n", b"", 2),
    (b"wlog 3\nafter 0 \n", b"", 2),
    (b"wlog 3\nafter 1 5 4be1\n", b"", 2),
    (b"wlog 3\nafter 0\nrules\n", b"", 3),
    (b"wlog 3\nafter 0\nrules age 0\n", b"", 3),
    (b"wlog 3\nafter 0\nrules age 5 ends homes\n", b"", 3),
    (b"wlog 3\nafter 0\nrules age 5\nrules age 5\n", b"", 4),
    (b"wlog 3\nafter 0\nstate 1000000001 open whole\n", b"", 3),
    (
        b"wlog 3\nafter 0\nstate 0 open whole\nentries 5:1 5:1\n",
        b"",
        4,
    ),
    (
        b"wlog 3\nafter 0\nstate 0 open whole\nentries 64:1\n",
        b"",
        4,
    ),
    (
        b"wlog 3\nafter 0\nstate 0 open whole\nentries\nagents 257\n",
        b"",
        5,
    ),
    (
        b"wlog 3\nafter 0\nstate 0 open whole\nentries\nagents 2\nagent slots 0 path 0,0\ntasks 0\n",
        b"",
        7,
    ),
    (
        b"wlog 3\nafter 0\nstate 0 open whole\nentries\nagents 1\nagent slots 0 path\n",
        b"",
        6,
    ),
    (
        b"wlog 3\nafter 0\nstate 0 open whole\nentries\nagents 1\nagent slots 0 path 65536,0\n",
        b"",
        6,
    ),
    (
        b"wlog 3\nafter 0\nstate 0 open whole\nentries\nagents 1\nagent slots 0 path 0,0\ntasks 1\ntask 0 x 0 agent 1 visits 1 2 3 stops 0,0 0,0\n",
        b"",
        8,
    ),
    (
        b"wlog 3\nafter 0\nstate 0 open whole\nentries\nagents 1\nagent slots 0 path 0,0\ntasks 0\nbegin",
        b"",
        8,
    ),
];

fn are_read(alloc: Global) -> bool {
    for (text, rest, line) in &FRONTS {
        if fault(alloc, text, rest) != *line {
            return false;
        }
    }
    true
}

#[test]
fn fronts_and_their_changes(rt: HostRuntime) {
    assert!(rt; are_read(rt.alloc()));
}
