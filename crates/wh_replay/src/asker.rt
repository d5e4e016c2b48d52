//! Who asks.

use wh_log::Form;

/// Who gives the commands of a script.
#[derive(Clone, Copy)]
pub struct Asker {
    /// The caller that the entries tell.
    pub caller: u32,
    /// How it is told replies.
    pub form: Form,
}
