//! Worked examples of the definitions in `specs/`, which the checker computes.

ghost use Rattle.session.specs.Rows.{StartPayload, OpeningFrames, OpeningRefusals};

/// Proves the worked examples: the payload of `connection.start`, the frames of an opening, and the refusals. Does nothing at run time.
pub fn ghost_worked_examples()
    ensures start { StartPayload }
    ensures frames { OpeningFrames }
    ensures refusals { OpeningRefusals }
{}
