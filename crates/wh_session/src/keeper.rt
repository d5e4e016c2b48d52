//! What keeps the records of a round before anything is told of it.

ghost use Rattle.std.specs.Prelude.{◌≡◌, ℕ, List, [], ◌++◌, Bool, true, false, OnOk, OnErr};
ghost use Rattle.wh_session.specs.Machines.{Records, nothing, joined};

/// What was to be kept was not.
#[derive(Clone, Copy, Debug, PartialEq, Eq)]
pub struct KeepFault;

/// Keeps records in order: first the log's, in as many pieces as come, then those that rest on the log.
pub trait Keeper {
    ghost Held: { Type 0 };
    /// What it holds, and what of that survives a kill.
    ghost holds: { Self → Held };
    /// All that is held survives a kill.
    ghost is_safe: { Held → Type 0 };
    /// These records were added behind what it held.
    ghost adds: { Held → Records → Held → Type 0 };
    /// These records were added, and all survives a kill.
    ghost keeps: { Held → Records → Held → Type 0 };
    /// A call failed while these records were added: a part of them may be held.
    ghost leaves: { Held → Records → Held → Type 0 };
    /// Each line is a round of its own.
    ghost single: { Bool };

    fn is_single(&self) -> bool
        ensures { result ≡ single };

    /// Whether it is to be handed records. One that says no keeps whatever they are, and is not called.
    fn takes_records(&self) -> bool
        ensures { result ≡ false → (a : Held) (r : Records) → is_safe a → keeps a r a }
    {
        true
    }

    /// Adds a piece to the log, before anything that rests on it. Where that fails, it does so while more was to be added.
    fn add(&mut self, log: &[u8]) -> Result<(), KeepFault>
        ensures ok { OnOk result (adds (holds self.old) (record { log = log.now; more = [] }) (holds self.new)) }
        ensures err { OnErr result ((a : Held) (r rest : Records) → is_safe a → adds a r (holds self.old) → r.more ≡ [] → leaves a (joined (joined r (record { log = log.now; more = [] })) rest) (holds self.new)) };

    /// Adds what rests on the log, behind all pieces of that. The log survives a kill before this is added.
    fn add_more(&mut self, more: &[u8]) -> Result<(), KeepFault>
        ensures ok { OnOk result (adds (holds self.old) (record { log = []; more = more.now }) (holds self.new)) }
        ensures err { OnErr result ((a : Held) (r rest : Records) → is_safe a → adds a r (holds self.old) → rest.log ≡ [] → leaves a (joined (joined r (record { log = []; more = more.now })) rest) (holds self.new)) };

    /// From now on all that was added survives a kill.
    fn sync(&mut self) -> Result<(), KeepFault>
        ensures ok { OnOk result ((a : Held) (r : Records) → is_safe a → adds a r (holds self.old) → keeps a r (holds self.new)) }
        ensures err { OnErr result ((a : Held) (r : Records) → is_safe a → adds a r (holds self.old) → leaves a r (holds self.new)) };

    ghost adds_none: { (a : Held) → adds a nothing a };

    ghost adds_both: { (a b c : Held) (r s : Records) → adds a r b → adds b s c → adds a (joined r s) c };

    ghost kept_safe: { (a : Held) (r : Records) (b : Held) → keeps a r b → is_safe b };

    ghost keeps_none: { (a : Held) → is_safe a → keeps a nothing a };

    ghost keeps_both: { (a b c : Held) (r s : Records) → keeps a r b → keeps b s c → keeps a (joined r s) c };
}
