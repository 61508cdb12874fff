//! Laws of header payloads: each is the contract of a function without a body.

ghost use Rattle.headers.specs.Laws.{OneHeader, SyntaxErrors};

/// Proves that a payload means at most one thing: one header or one reply code. Does nothing at run time.
pub fn ghost_one_header()
    ensures { OneHeader }
{}

/// Proves what is a syntax error (502): a set bit 1 or 0 of the flags, properties that end early or leave bytes over, headers that are no table.
/// Does nothing at run time.
pub fn ghost_syntax_errors()
    ensures { SyntaxErrors }
{}
