//! The lines of those who drive vehicles.
#![tactic(auto)]

use crate::order::crossing;
use arrayvec::ArrayVec;
use std::test::Fail;
use wh_grid::Cell;
use wh_order::VisitOrder;
use wh_vehicles::{Notice, Report, answer_report, late, put_notice, read_report};

/// Lines, each with the report that it is, if it is one.
const LINES: [(&[u8], Option<Report>); 7] = [
    (b"at 3 12", Some(Report { agent: 3, step: 12 })),
    (b" at\t03  0012 ", Some(Report { agent: 3, step: 12 })),
    (b"at 3", None),
    (b"at 3 12 1", None),
    (b"at x 12", None),
    (b"tick", None),
    (
        b"at 0 99999999999",
        Some(Report {
            agent: 0,
            step: 4294967295,
        }),
    ),
];

#[test]
fn reports_are_read(rt: HostRuntime) {
    for (line, report) in LINES {
        assert!(rt; read_report(line) == report);
    }
}

/// Notices, each with its text.
const NOTICES: [(Notice, &[u8]); 6] = [
    (
        Notice::Go {
            agent: 3,
            step: 12,
            cell: Cell { x: 4, y: 65535 },
        },
        b"go 3 12 4,65535",
    ),
    (Notice::Arrived { agent: 0, step: 7 }, b"arrived 0 7"),
    (
        Notice::Visited {
            agent: 1,
            task: 20,
            visit: 0,
        },
        b"visited 1 20 0",
    ),
    (Notice::Behind { agent: 1, steps: 8 }, b"refused V1 1 8"),
    (Notice::UnknownAgent { agent: 9 }, b"refused V2 9"),
    (Notice::NotTold { agent: 2, step: 5 }, b"refused V3 2 5"),
];

/// Whether a notice has the text.
fn says(notice: Notice, text: &[u8]) -> bool {
    let mut line = ArrayVec::new();
    put_notice(&mut line, &notice);
    line.as_slice() == text
}

#[test]
fn notices_have_texts(rt: HostRuntime) {
    for (notice, text) in NOTICES {
        assert!(rt; says(notice, text));
    }
}

/// Reports, each with its answer, and with who is behind by five steps then.
const REPORTS: [(Report, Notice, Option<Notice>); 4] = [
    (
        Report { agent: 0, step: 2 },
        Notice::Arrived { agent: 0, step: 2 },
        Some(Notice::Behind { agent: 1, steps: 5 }),
    ),
    (
        Report { agent: 0, step: 2 },
        Notice::Arrived { agent: 0, step: 2 },
        Some(Notice::Behind { agent: 1, steps: 5 }),
    ),
    (
        Report { agent: 0, step: 3 },
        Notice::NotTold { agent: 0, step: 3 },
        Some(Notice::Behind { agent: 1, steps: 5 }),
    ),
    (
        Report { agent: 3, step: 1 },
        Notice::UnknownAgent { agent: 3 },
        Some(Notice::Behind { agent: 1, steps: 5 }),
    ),
];

/// Whether all reports are answered so, one after the other.
fn answers_all(order: &mut VisitOrder) -> bool {
    for (report, answer, behind) in REPORTS {
        if answer_report(order, report) != answer || late(order, 5) != behind {
            return false;
        }
    }
    true
}

#[test]
fn reports_are_answered(rt: HostRuntime) -> Result<(), Fail> {
    let mut order = crossing(rt.alloc(), 3)?;
    let mut told = Vec::new(rt.alloc());
    order.settle(&mut told)?;
    assert!(rt; late(&order, 5) == Some(Notice::Behind { agent: 0, steps: 5 }));
    assert!(rt; answers_all(&mut order));
    assert!(rt; late(&order, 6).is_none());
    Ok(())
}
