//! A law that clients lean on. The function does nothing, and its contract is the law.

ghost use Rattle.wh_serve.specs.Beginnings.{ServesOwn};

/// Whatever stood in front of `begin TAG`, of a connection's lines those that are served are the first that its client sent behind it.
pub fn serves_own()
    ensures { ServesOwn }
{}
