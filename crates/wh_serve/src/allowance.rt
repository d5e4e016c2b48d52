//! What a client may do.

ghost use Rattle.std.specs.Prelude.{◌≡◌, true};
ghost use Rattle.wh_serve.specs.Allowances.{allows};

use wh_event::Command;

/// What a client has a right to: the commands, and to stop the service.
#[derive(Clone, Copy, Debug, PartialEq, Eq, Default)]
pub struct Rights {
    pub submit: bool,
    pub token: bool,
    pub tick: bool,
    pub replace: bool,
    pub close: bool,
    pub stop: bool,
}

impl Rights {
    /// The right to every command, and not to stop the service.
    pub fn all() -> Rights
        ensures { (command : _) → allows result command ≡ true }
    {
        Rights {
            submit: true,
            token: true,
            tick: true,
            replace: true,
            close: true,
            stop: false,
        }
    }

    /// Whether they allow this command.
    pub fn allow(&self, command: &Command) -> bool
        ensures { result ≡ allows self.now command.now }
    {
        match command {
            Command::Submit { .. } => self.submit,
            Command::Token { .. } => self.token,
            Command::Tick => self.tick,
            Command::Replace { .. } => self.replace,
            Command::Close => self.close,
        }
    }
}

/// What a client may do.
#[derive(Clone, Copy, Debug, PartialEq, Eq)]
pub struct Allowance {
    /// The commands that it has a right to.
    pub rights: Rights,
    /// How many entries of the history may be its own.
    pub entries: u64,
    /// How many entries it had in logs before this one: they are told, and do not count here.
    pub before: u64,
}
