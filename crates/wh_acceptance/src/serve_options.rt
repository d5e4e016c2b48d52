//! The command line of `serve` from outside: its options and its clients.
use super::options::{FLEET, command, gives, is_refused};
use clap::error::ErrorKind;
use std::test::*;
use wh_options::{ClientOptions, ClientRights, Fleet, Options, Replies, ServeOptions};

const NO_RIGHTS: ClientRights = ClientRights {
    submit: false,
    token: false,
    tick: false,
    replace: false,
    close: false,
    stop: false,
};

const CLIENTS: [ClientOptions<'static>; 3] = [
    ClientOptions {
        number: 61,
        folder: "pipes/a b=c",
        rights: ClientRights {
            submit: true,
            ..NO_RIGHTS
        },
    },
    ClientOptions {
        number: 0,
        folder: "ticker",
        rights: ClientRights {
            token: true,
            tick: true,
            stop: true,
            ..NO_RIGHTS
        },
    },
    ClientOptions {
        number: 7,
        folder: "boss",
        rights: ClientRights {
            submit: true,
            token: true,
            tick: true,
            replace: true,
            close: true,
            stop: false,
        },
    },
];

/// Words for clients, after `warehouse serve --log=a`, that name none, or not each its own.
const NO_CLIENTS: [&[&str]; 18] = [
    &["--client="],
    &["--client", "c"],
    &["--client", "=c"],
    &["--client", "0="],
    &["--client", "0=:all"],
    &["--client", "62=c"],
    &["--client=-1=c"],
    &["--client=one=c"],
    &["--client", "0=c:"],
    &["--client", "0=c:sumbit"],
    &["--client", "0=c:tick,"],
    &["--client", "0=c:tick,tick"],
    &["--client", "0=c:all,tick"],
    &["--client", "0=c:all,stop"],
    &["--client", "0=c:stop,stop"],
    &["--client=0=c", "--client=0=d"],
    &["--client=0=c", "--client=00=d"],
    &["--client=0=c", "--client=1=c:tick"],
];

#[test]
fn every_option_of_serve(rt: HostRuntime) -> Result<(), Fail> {
    let words = [
        "warehouse",
        "serve",
        "--client",
        "61=pipes/a b=c",
        "--journal=500",
        "--client=0=ticker:tick,stop,token",
        "--log",
        "a.log",
        "--replies=placed",
        "--client",
        "7=boss:all",
        "--spares=2",
        "--ends",
        "homes",
        "--share=1000000",
        "--every",
        "20",
        "--board=a.log.new",
        "--board-every=1000",
    ];
    let many = ServeOptions {
        fleet: Fleet {
            spares: 2,
            homes: true,
            ..FLEET
        },
        journal: 500,
        share: Some(1_000_000),
        replies: Replies::Placed,
        log: "a.log",
        anew: false,
        every: Some(20),
        board: Some("a.log.new"),
        board_every: 1000,
        clients: Vec::from_array(rt.alloc(), CLIENTS)?,
    };
    assert!(rt; gives(rt.alloc(), words.as_slice(), Options::Serve(many)));
    let one = ServeOptions {
        fleet: FLEET,
        journal: 1_000_000,
        share: None,
        replies: Replies::Short,
        log: "x",
        anew: true,
        every: None,
        board: None,
        board_every: 100,
        clients: Vec::from_array(rt.alloc(), [CLIENTS[0]])?,
    };
    let words = ["", "serve", "--log=x", "--new", "--client=61=pipes/a b=c"];
    assert!(rt; gives(rt.alloc(), words.as_slice(), Options::Serve(one)));
    Ok(())
}

#[test]
fn words_that_name_no_clients(rt: HostRuntime) -> Result<(), Fail> {
    for words in NO_CLIENTS {
        let mut all = command(rt.alloc(), &["serve", "--log=a"])?;
        all.extend_from_slice(words)?;
        assert!(rt; is_refused(rt.alloc(), all.as_slice(), ErrorKind::ValueValidation));
    }
    Ok(())
}
