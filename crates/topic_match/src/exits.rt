//! The exits of a node: the kinds (word, `*` or `#`) of its children's last tokens. A walk looks for a child by a token only if the node has an exit
//! of the token's kind.

ghost use Rattle.std.specs.Prelude.{◌≡◌, ◌<◌, length, IfOk};
ghost use Rattle.topic_match.specs.Exits.{AreDeep, AreExits, with_exit, with_exit_to};
ghost use Rattle.topic_match.specs.Nodes.{IsDeep};

use crate::nodes::{Exits, Node};
use crate::patterns::Pattern;
use model::Token;
use std::alloc::{AllocError, Global};

/// Returns `exits` with the kind of `token` added.
fn with_exit(exits: Exits, token: &Token) -> Exits
    ensures { result ≡ with_exit exits token.now }
{
    match token {
        Token::Word(_) => Exits {
            word: true,
            one: exits.one,
            any: exits.any,
        },
        Token::One => Exits {
            word: exits.word,
            one: true,
            any: exits.any,
        },
        Token::Any => Exits {
            word: exits.word,
            one: exits.one,
            any: true,
        },
    }
}

/// Adds the last token of `node` to the exits of its parent.
fn open(patterns: &[Pattern], node: &Node, exits: &mut [Exits])
    requires deep { IsDeep patterns.now node.now }
    requires within { node.now.parent < length exits.old }
    ensures { exits.new ≡ with_exit_to patterns.now node.now exits.old }
{
    let token = &patterns[node.pattern].tokens()[node.depth - 1];
    exits[node.parent] = with_exit(exits[node.parent], token);
}

/// Returns `count` entries without an exit. Fails only if an allocation fails.
fn no_exits(alloc: Global, count: usize) -> Result<Vec<Exits>, AllocError>
    ensures { IfOk result (λ exits. length exits.items ≡ count) }
{
    let none = Exits {
        word: false,
        one: false,
        any: false,
    };
    let mut exits = Vec::new(alloc);
    exits.resize(count, none)?;
    Ok(exits)
}

/// Returns the exits of each of `nodes`. Fails only if an allocation fails.
pub fn exits_of(
    alloc: Global,
    patterns: &[Pattern],
    nodes: &[Node],
) -> Result<Vec<Exits>, AllocError>
    requires { AreDeep patterns.now nodes.now }
    ensures { IfOk result (λ exits. AreExits patterns.now nodes.now (length nodes.now) exits.items) }
{
    let mut exits = no_exits(alloc, nodes.len())?;
    for place in 1..nodes.len() {
        open(patterns, &nodes[place], exits.as_mut_slice());
    }
    Ok(exits)
}
