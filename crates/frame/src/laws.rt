//! A law of frames: the contract of a function without a body.

ghost use Rattle.frame.specs.Laws.{OneFrame};

/// Proves that at most one frame is at the front of any bytes. Does nothing at run time.
pub fn ghost_one_frame()
    ensures { OneFrame }
{}
