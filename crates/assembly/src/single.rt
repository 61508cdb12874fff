//! A law of streams: the contract of a function without a body.

ghost use Rattle.assembly.specs.Laws.{OneNext};

/// Proves that a stream has one next command or one end. Does nothing at run time.
pub fn ghost_one_next()
    ensures { OneNext }
{}
