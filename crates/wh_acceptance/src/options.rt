//! The command line from outside: each subcommand, both spellings of an option, and refusals; what `serve` takes is in `serve_options`.
use clap::error::ErrorKind;
use std::alloc::{AllocError, Global};
use std::test::*;
use wh_options::{
    CheckOptions, Fleet, LiveOptions, Options, PlannerKind, Refusal, ReplayOptions, Replies, Tail,
    VehicleOptions, VerifyOptions, options, refusal_of,
};

pub(super) const FLEET: Fleet = Fleet {
    planner: PlannerKind::Near,
    slack: 0,
    effort: None,
    slots: 4,
    bank: 1024,
    spares: 0,
    homes: false,
};

const PLAIN: ReplayOptions<'static> = ReplayOptions {
    fleet: FLEET,
    tail: Tail::Nothing,
    replies: Replies::Short,
    log: None,
    told: None,
    anew: false,
    vehicles: None,
    deliver: false,
};

const LEDGER: ReplayOptions<'static> = ReplayOptions {
    fleet: Fleet { slots: 8, ..FLEET },
    tail: Tail::Ledger,
    replies: Replies::Full,
    ..PLAIN
};

/// Words after `warehouse replay`, and the options that they give.
const REPLAYS: [(&[&str], ReplayOptions<'static>); 25] = [
    (&[], PLAIN),
    (&["--slots=8", "--tail=ledger", "--replies=full"], LEDGER),
    (
        &["--replies", "full", "--tail", "ledger", "--slots", "8"],
        LEDGER,
    ),
    (&["--replies", "short"], PLAIN),
    (
        &["--replies=placed"],
        ReplayOptions {
            replies: Replies::Placed,
            ..PLAIN
        },
    ),
    (
        &["--tail=log"],
        ReplayOptions {
            tail: Tail::Log,
            ..PLAIN
        },
    ),
    (
        &["--tail=none", "--replies=full"],
        ReplayOptions {
            replies: Replies::Full,
            ..PLAIN
        },
    ),
    (
        &["--log", "a.log"],
        ReplayOptions {
            log: Some("a.log"),
            ..PLAIN
        },
    ),
    (
        &["--slots=4", "--log=kept/a b=c"],
        ReplayOptions {
            log: Some("kept/a b=c"),
            ..PLAIN
        },
    ),
    // A hyphen alone is a name as any, and one that has more behind it must stand in the option's word.
    (
        &["--log", "-", "--tail=none"],
        ReplayOptions {
            log: Some("-"),
            ..PLAIN
        },
    ),
    (
        &["--log=--tail"],
        ReplayOptions {
            log: Some("--tail"),
            ..PLAIN
        },
    ),
    (
        &["--told", "0", "--log", "a.log"],
        ReplayOptions {
            log: Some("a.log"),
            told: Some(0),
            ..PLAIN
        },
    ),
    (
        &["--new", "--log", "a.log"],
        ReplayOptions {
            log: Some("a.log"),
            anew: true,
            ..PLAIN
        },
    ),
    (
        &["--log", "a.log", "--told=999999999"],
        ReplayOptions {
            log: Some("a.log"),
            told: Some(999_999_999),
            ..PLAIN
        },
    ),
    (
        &["--vehicles"],
        ReplayOptions {
            vehicles: Some(VehicleOptions {
                behind: 8,
                ahead: 1,
            }),
            ..PLAIN
        },
    ),
    (
        &["--behind", "1", "--vehicles", "--"],
        ReplayOptions {
            vehicles: Some(VehicleOptions {
                behind: 1,
                ahead: 1,
            }),
            ..PLAIN
        },
    ),
    (
        &["--vehicles", "--ahead=1000", "--log=a.log", "--behind=1000"],
        ReplayOptions {
            log: Some("a.log"),
            vehicles: Some(VehicleOptions {
                behind: 1000,
                ahead: 1000,
            }),
            ..PLAIN
        },
    ),
    (
        &["--deliver", "--log=a.log"],
        ReplayOptions {
            log: Some("a.log"),
            deliver: true,
            ..PLAIN
        },
    ),
    (&["--planner=near"], PLAIN),
    (
        &["--planner=near", "--slack=1000"],
        ReplayOptions {
            fleet: Fleet {
                slack: 1000,
                ..FLEET
            },
            ..PLAIN
        },
    ),
    (&["--slack", "0"], PLAIN),
    (
        &["--effort=1000", "--slack", "4"],
        ReplayOptions {
            fleet: Fleet {
                slack: 4,
                effort: Some(1000),
                ..FLEET
            },
            ..PLAIN
        },
    ),
    (
        &["--effort", "1000000000"],
        ReplayOptions {
            fleet: Fleet {
                effort: Some(1_000_000_000),
                ..FLEET
            },
            ..PLAIN
        },
    ),
    (&["--ends", "stops"], PLAIN),
    (
        &["--ends=homes", "--slots=4"],
        ReplayOptions {
            fleet: Fleet {
                homes: true,
                ..FLEET
            },
            ..PLAIN
        },
    ),
];

/// Words that are refused, and the kind of the error.
const MISTAKES: [(&[&str], ErrorKind); 85] = [
    (&["replay", "--slack=1001"], ErrorKind::ValueValidation),
    (&["check", "--slack=1"], ErrorKind::UnknownArgument),
    (&["replay", "--effort=999"], ErrorKind::ValueValidation),
    (
        &["serve", "--effort=1000000001"],
        ErrorKind::ValueValidation,
    ),
    (&["verify", "--effort=1000"], ErrorKind::UnknownArgument),
    (&["verify", "--wlog=2"], ErrorKind::ValueValidation),
    (&["verify", "--wlog=4"], ErrorKind::ValueValidation),
    (&["replay", "--wlog=3"], ErrorKind::UnknownArgument),
    (
        &["replay", "--effort=1000", "--planner=patient"],
        ErrorKind::ArgumentConflict,
    ),
    (
        &["live", "--planner", "patient", "--effort", "5000"],
        ErrorKind::ArgumentConflict,
    ),
    (
        &[
            "serve",
            "--log=x",
            "--client=0=a",
            "--planner=patient",
            "--effort=4000",
        ],
        ErrorKind::ArgumentConflict,
    ),
    (
        &["replay", "--slack=0", "--planner=patient"],
        ErrorKind::ArgumentConflict,
    ),
    (
        &["live", "--planner", "patient", "--slack", "4"],
        ErrorKind::ArgumentConflict,
    ),
    (
        &[
            "serve",
            "--log=x",
            "--client=0=a",
            "--planner=patient",
            "--slack=4",
        ],
        ErrorKind::ArgumentConflict,
    ),
    (
        &["serve", "--planner=patient", "--slack=4"],
        ErrorKind::MissingRequiredArgument,
    ),
    (
        &["replay", "--deliver", "--vehicles"],
        ErrorKind::ArgumentConflict,
    ),
    (&["replay", "--ends=home"], ErrorKind::InvalidValue),
    (&["check", "--ends"], ErrorKind::InvalidValue),
    (&["live", "--ends=HOMES"], ErrorKind::InvalidValue),
    (
        &["verify", "--ends=homes", "--ends", "stops"],
        ErrorKind::ArgumentConflict,
    ),
    (&["replay", "--log"], ErrorKind::InvalidValue),
    (&["replay", "--log="], ErrorKind::InvalidValue),
    (&["replay", "--log", ""], ErrorKind::InvalidValue),
    (
        &["replay", "--log", "--tail", "log"],
        ErrorKind::InvalidValue,
    ),
    (&["replay", "--log", "-x"], ErrorKind::UnknownArgument),
    (
        &["replay", "--log=a.log", "--log", "a.log"],
        ErrorKind::ArgumentConflict,
    ),
    (&["check", "--log", "x"], ErrorKind::UnknownArgument),
    (&["serve", "--log=x"], ErrorKind::MissingRequiredArgument),
    (&["live", "--log=x"], ErrorKind::UnknownArgument),
    (&["serve", "--log="], ErrorKind::InvalidValue),
    (
        &["serve", "--log=a", "--log=b", "--client=0=c"],
        ErrorKind::ArgumentConflict,
    ),
    (
        &["replay", "--told", "0"],
        ErrorKind::MissingRequiredArgument,
    ),
    (
        &["replay", "--behind=8"],
        ErrorKind::MissingRequiredArgument,
    ),
    (
        &["replay", "--ahead", "1", "--log", "a"],
        ErrorKind::MissingRequiredArgument,
    ),
    (&["replay", "--new"], ErrorKind::MissingRequiredArgument),
    (&["live", "--new"], ErrorKind::UnknownArgument),
    (&["replay", "--vehicles=true"], ErrorKind::TooManyValues),
    (
        &["replay", "--vehicles", "true"],
        ErrorKind::UnknownArgument,
    ),
    (
        &["replay", "--vehicles", "--vehicles"],
        ErrorKind::ArgumentConflict,
    ),
    (
        &["replay", "--vehicles", "--behind", "0"],
        ErrorKind::ValueValidation,
    ),
    (
        &["replay", "--vehicles", "--ahead", "1001"],
        ErrorKind::ValueValidation,
    ),
    (&["live", "--vehicles"], ErrorKind::UnknownArgument),
    (&["replay", "--slots", "65"], ErrorKind::ValueValidation),
    (&["go"], ErrorKind::InvalidSubcommand),
    (
        &["replay", "--slots=4", "--slots=4"],
        ErrorKind::ArgumentConflict,
    ),
    (&["replay", "--replies", "long"], ErrorKind::InvalidValue),
    (&["replay", "--replies=Full"], ErrorKind::InvalidValue),
    (&["replay", "--replies=log"], ErrorKind::InvalidValue),
    (
        &["serve", "--replies=full"],
        ErrorKind::MissingRequiredArgument,
    ),
    (&["serve", "--replies=long"], ErrorKind::InvalidValue),
    (
        &["serve", "--client", "0=c"],
        ErrorKind::MissingRequiredArgument,
    ),
    (
        &["serve", "--client=nobody", "--every=5"],
        ErrorKind::MissingRequiredArgument,
    ),
    (&["serve", "--client"], ErrorKind::InvalidValue),
    (&["replay", "--client=0=c"], ErrorKind::UnknownArgument),
    (&["serve"], ErrorKind::MissingRequiredArgument),
    (
        &["serve", "--log=a", "--client=0=c", "--turns=5"],
        ErrorKind::UnknownArgument,
    ),
    (&["live", "--client=0=c"], ErrorKind::UnknownArgument),
    (&["live", "--every", "5"], ErrorKind::UnknownArgument),
    (&["live", "--board=b"], ErrorKind::UnknownArgument),
    (&["live", "--board-every=5"], ErrorKind::UnknownArgument),
    (&["live", "--share=5"], ErrorKind::UnknownArgument),
    (&["live", "--replies=full"], ErrorKind::UnknownArgument),
    (&["live", "--turns=0"], ErrorKind::ValueValidation),
    (&["live", "--turns=100001"], ErrorKind::ValueValidation),
    (&["serve", "--journal=0"], ErrorKind::ValueValidation),
    (&["serve", "--journal=1000001"], ErrorKind::ValueValidation),
    (
        &["serve", "--log=a", "--board=a", "--client=0=c"],
        ErrorKind::ArgumentConflict,
    ),
    (
        &["serve", "--log=a.new", "--board", "a", "--client=nobody"],
        ErrorKind::ArgumentConflict,
    ),
    (
        &["serve", "--board=a.site", "--client=0=c", "--log=a"],
        ErrorKind::ArgumentConflict,
    ),
    (
        &["serve", "--log=a", "--board=b", "--client=nobody"],
        ErrorKind::ValueValidation,
    ),
    (&["serve", "--share=5"], ErrorKind::MissingRequiredArgument),
    (
        &["serve", "--log=a", "--client=0=c", "--share=0"],
        ErrorKind::ValueValidation,
    ),
    (
        &["serve", "--log=a", "--client=0=c", "--share", "1000001"],
        ErrorKind::ValueValidation,
    ),
    (&["replay", "--share=5"], ErrorKind::UnknownArgument),
    (
        &["serve", "--log=a", "--client=0=c", "--board-every=1"],
        ErrorKind::MissingRequiredArgument,
    ),
    (&["serve", "--every", "0"], ErrorKind::ValueValidation),
    (&["serve", "--every=60001"], ErrorKind::ValueValidation),
    (&["replay", "--every", "1"], ErrorKind::UnknownArgument),
    (
        &["serve", "--board-every=100"],
        ErrorKind::MissingRequiredArgument,
    ),
    (&["serve", "--board"], ErrorKind::InvalidValue),
    (&["serve", "--board="], ErrorKind::InvalidValue),
    (
        &["serve", "--board=b", "--board-every=0"],
        ErrorKind::ValueValidation,
    ),
    (
        &["serve", "--board=b", "--board-every=60001"],
        ErrorKind::ValueValidation,
    ),
    (
        &["serve", "--board=b", "--board=b"],
        ErrorKind::ArgumentConflict,
    ),
    (&["replay", "--board=b"], ErrorKind::UnknownArgument),
];

/// The program's name, followed by these words.
pub(super) fn command<'a>(alloc: Global, words: &[&'a str]) -> Result<Vec<&'a str>, AllocError> {
    let mut all = Vec::new(alloc);
    all.push("warehouse")?;
    all.extend_from_slice(words)?;
    Ok(all)
}

/// Whether the words of a command line give these options.
pub(super) fn gives(alloc: Global, words: &[&str], wanted: Options<'_>) -> bool {
    match options(alloc, words) {
        Ok(found) => found == wanted,
        Err(_) => false,
    }
}

/// Whether the words of a command line are refused as a mistake of this kind.
pub(super) fn is_refused(alloc: Global, words: &[&str], kind: ErrorKind) -> bool {
    match options(alloc, words) {
        Ok(_) => false,
        Err(error) => {
            error.kind() == kind && refusal_of(&error) == Refusal::Mistake && error.use_stderr()
        }
    }
}

#[test]
fn options_of_replay(rt: HostRuntime) -> Result<(), Fail> {
    for (words, wanted) in REPLAYS {
        let mut all = command(rt.alloc(), &["replay"])?;
        all.extend_from_slice(words)?;
        assert!(rt; gives(rt.alloc(), all.as_slice(), Options::Replay(wanted)));
    }
    Ok(())
}

#[test]
fn other_subcommands(rt: HostRuntime) {
    let alloc = rt.alloc();
    let stops = Options::Check(CheckOptions { homes: false });
    let homes = Options::Check(CheckOptions { homes: true });
    assert!(rt; gives(alloc, &["warehouse", "check", "--"], stops));
    assert!(rt; gives(alloc, &["warehouse", "check", "--ends=homes"], homes));
    let stops = Options::Verify(VerifyOptions {
        homes: false,
        unended: false,
        wlog: None,
        chain: false,
    });
    let homes = Options::Verify(VerifyOptions {
        homes: true,
        unended: false,
        wlog: None,
        chain: false,
    });
    assert!(rt; gives(alloc, &["warehouse", "verify"], stops));
    assert!(rt; gives(alloc, &["warehouse", "verify", "--ends", "homes"], homes));
    let unended = Options::Verify(VerifyOptions {
        homes: false,
        unended: true,
        wlog: None,
        chain: false,
    });
    assert!(rt; gives(alloc, &["warehouse", "verify", "--unended"], unended));
    let fronts = Options::Verify(VerifyOptions {
        homes: false,
        unended: false,
        wlog: Some(3),
        chain: false,
    });
    assert!(rt; gives(alloc, &["warehouse", "verify", "--wlog", "3"], fronts));
    let live = LiveOptions {
        fleet: FLEET,
        turns: 64,
        journal: 10_000,
    };
    assert!(rt; gives(alloc, &["warehouse", "live"], Options::Live(live)));
}

#[test]
fn every_option_of_live(rt: HostRuntime) {
    let words = [
        "warehouse",
        "live",
        "--journal=1000000",
        "--planner",
        "patient",
        "--turns",
        "007",
        "--slots=+64",
        "--bank",
        "65536",
        "--spares=16",
        "--ends=homes",
    ];
    let live = LiveOptions {
        fleet: Fleet {
            planner: PlannerKind::Patient,
            slack: 0,
            effort: None,
            slots: 64,
            bank: 65536,
            spares: 16,
            homes: true,
        },
        turns: 7,
        journal: 1_000_000,
    };
    assert!(rt; gives(rt.alloc(), words.as_slice(), Options::Live(live)));
}

#[test]
fn mistakes(rt: HostRuntime) -> Result<(), Fail> {
    for (words, kind) in MISTAKES {
        let all = command(rt.alloc(), words)?;
        assert!(rt; is_refused(rt.alloc(), all.as_slice(), kind));
    }
    Ok(())
}
