//! A law of method payloads: the contract of a function without a body.

ghost use Rattle.methods.specs.Laws.{OneMethod};

/// Proves that a payload means at most one thing: one method or one reply code. Does nothing at run time.
pub fn ghost_one_method()
    ensures { OneMethod }
{}
