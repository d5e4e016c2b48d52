//! The outcome of a command line that gives no options.
ghost use Rattle.std.specs.Prelude.{◌≡◌, ◌≢◌, ◌⊎◌};
ghost use Rattle.clap.specs.Words.{kind_of};

use clap::Error;
use clap::error::ErrorKind;

/// Why a command line is not run: where its text belongs, and how the program ends.
#[derive(Clone, Copy, Debug, PartialEq, Eq)]
pub enum Refusal {
    /// Help or the version was asked for: the text belongs on standard output, and the program
    /// ends well, with status 0.
    Asked,
    /// The words are mistaken: the text belongs on standard error, and the status is 2.
    Mistake,
    /// Memory ran out: the text belongs on standard error, and the status is 4.
    NoMemory,
}

/// Why a command line is not run, by the error that `options` returned.
pub fn refusal_of(error: &Error) -> Refusal
    // Help and the version are what was asked for.
    ensures asked { (kind_of error.now ≡ ErrorKind.DisplayHelp)
        ⊎ (kind_of error.now ≡ ErrorKind.DisplayVersion) → result ≡ Refusal.Asked }
    // Lack of memory is told as such.
    ensures memory { kind_of error.now ≡ ErrorKind.OutOfMemory → result ≡ Refusal.NoMemory }
    // Every other kind is a mistake in the words.
    ensures mistake { kind_of error.now ≢ ErrorKind.DisplayHelp
        → kind_of error.now ≢ ErrorKind.DisplayVersion
        → kind_of error.now ≢ ErrorKind.OutOfMemory → result ≡ Refusal.Mistake }
{
    match error.kind() {
        ErrorKind::DisplayHelp | ErrorKind::DisplayVersion => Refusal::Asked,
        ErrorKind::OutOfMemory => Refusal::NoMemory,
        _ => Refusal::Mistake,
    }
}
