//! The tokens by which a walk over a trie goes on.

ghost use Rattle.std.specs.Prelude.{◌≡◌, ◌<◌, Decides, IfOk};
ghost use Rattle.model.specs.Topology.{IsIn};
ghost use Rattle.model.specs.declared.texts.Token.TheVariants.{Word};
ghost use Rattle.topic_match.specs.Walks.{AreSteps};

use crate::children::mixed;
use crate::nodes::Exits;
use crate::pieces::KeyWord;
use model::Token;
use smallvec::SmallVec;
use std::alloc::{AllocError, Global};
use std::marker::Model;

/// What a token matches.
#[derive(Clone, Copy, Drop)]
enum Taken<'a> {
    /// The word of these bytes.
    Exactly(&'a [u8]),
    /// Any one word.
    Single,
    /// Any number of words.
    Several,
}

/// A token borrowed from a key or a pattern, with its mark.
#[derive(Drop)]
pub struct Step<'a> {
    taken: Taken<'a>,
    mark: u64,
}

impl<'a> Model for Step<'a> {
    ghost use Rattle.std.specs.Prelude.{◌≡◌};
    ghost use Rattle.model.specs.declared.texts.Token.{Token};
    ghost use Rattle.model.specs.declared.texts.Token.TheVariants.{Word, One, Any};
    ghost use Rattle.topic_match.specs.declared.steps.Taken.TheVariants.{Exactly, Single, Several};
    ghost use Rattle.topic_match.specs.Nodes.{mark_of};

    ghost Value = { Token };

    ghost view = { λ s. elim s.taken [ Exactly w ↦ Word w.now | Single ↦ One | Several ↦ Any ] };

    ghost invariant = { λ s. s.mark ≡ mark_of (elim s.taken [ Exactly w ↦ Word w.now | Single ↦ One | Several ↦ Any ]) };
}

impl<'a> Default for Step<'a> {
    ghost use Rattle.std.specs.Prelude.{◌≡◌};
    ghost use Rattle.model.specs.declared.texts.Token.TheVariants.{Any};

    ghost is_default = { λ s. s ≡ Any };

    fn default() -> Step<'a> {
        Step::any()
    }
}

impl<'a> Step<'a> {
    ghost use Rattle.std.specs.Prelude.{◌≡◌, Decides};
    ghost use Rattle.model.specs.declared.texts.Token.TheVariants.{Word, One, Any};
    ghost use Rattle.topic_match.specs.Nodes.{mark_of};
    ghost use Rattle.topic_match.specs.Counts.{matches_after, matches_empty};
    ghost use Rattle.topic_match.specs.Exits.{has_exit};

    /// Returns the step by `#`.
    pub fn any() -> Step<'a>
        ensures { result ≡ Any }
    {
        Step {
            taken: Taken::Several,
            mark: 35,
        }
    }

    /// Returns the step by `*`.
    pub fn one() -> Step<'a>
        ensures { result ≡ One }
    {
        Step {
            taken: Taken::Single,
            mark: 42,
        }
    }

    /// Returns the step by the word `bytes`.
    pub fn word(bytes: &'a [u8]) -> Step<'a>
        ensures { result ≡ Word bytes.now }
    {
        Step {
            taken: Taken::Exactly(bytes),
            mark: mixed(bytes),
        }
    }

    /// Returns the step by `token`.
    pub fn by(token: &'a Token) -> Step<'a>
        ensures { result ≡ token.now }
    {
        match token {
            Token::Word(word) => Step::word(word.as_bytes()),
            Token::One => Step::one(),
            Token::Any => Step::any(),
        }
    }

    /// Returns the mark of the token, below 2^32.
    pub fn mark(&self) -> u64
        ensures { result ≡ mark_of self.now }
    {
        self.mark
    }

    /// Returns whether the token is `*`.
    pub fn is_one(&self) -> bool
        ensures { Decides result (self.now ≡ One) }
    {
        match self.taken {
            Taken::Exactly(_) => false,
            Taken::Single => true,
            Taken::Several => false,
        }
    }

    /// Returns whether the token is `token`.
    pub fn is_by(&self, token: &Token) -> bool
        ensures { Decides result (token.now ≡ self.now) }
    {
        match (token, self.taken) {
            (Token::Word(word), Taken::Exactly(bytes)) => word.as_bytes() == bytes,
            (Token::One, Taken::Single) => true,
            (Token::Any, Taken::Several) => true,
            _ => false,
        }
    }

    /// Returns whether the token is the word `word`.
    fn is_by_word(&self, word: &KeyWord<'_>) -> bool
        ensures { Decides result (Word word.now ≡ self.now) }
    {
        match self.taken {
            Taken::Exactly(bytes) => word.as_bytes() == bytes,
            Taken::Single => false,
            Taken::Several => false,
        }
    }

    /// Returns whether `exits` has the kind of this token.
    pub fn may_go(&self, exits: Exits) -> bool
        ensures { result ≡ has_exit exits self.now }
    {
        match self.taken {
            Taken::Exactly(_) => exits.word,
            Taken::Single => exits.one,
            Taken::Several => exits.any,
        }
    }

    /// Returns whether tokens that end with this one match the empty key. `before` says whether those before it do.
    pub fn matches_empty(&self, before: bool) -> bool
        ensures { result ≡ matches_empty self.now before }
    {
        match self.taken {
            Taken::Exactly(_) => false,
            Taken::Single => false,
            Taken::Several => before,
        }
    }

    /// Returns whether the tokens up to this one match the words up to `word`. `before_was` and `before_is` say whether the tokens before this one match the
    /// words before `word`, and the words up to it; `was` says whether the tokens up to this one match the words before `word`.
    pub fn matches_after(
        &self,
        word: &KeyWord<'_>,
        before_was: bool,
        was: bool,
        before_is: bool,
    ) -> bool
        ensures { result ≡ matches_after self.now word.now before_was was before_is }
    {
        match self.taken {
            Taken::Exactly(bytes) => before_was && word.as_bytes() == bytes,
            Taken::Single => before_was,
            Taken::Several => was | before_is,
        }
    }
}

/// Tokens, each once. Up to ten of them need no allocation.
pub type Steps<'a> = SmallVec<Step<'a>, 10>;

/// Returns whether `steps` has the word `word`.
fn has_word(steps: &[Step<'_>], word: &KeyWord<'_>) -> bool
    ensures { Decides result (IsIn (Word word.now) steps.now) }
{
    for place in 0..steps.len() {
        if steps[place].is_by_word(word) {
            return true;
        }
    }
    false
}

/// Returns `#`, `*` and each of `words`, each once. Fails only if an allocation fails.
pub fn steps_of<'a>(alloc: Global, words: &[KeyWord<'a>]) -> Result<Steps<'a>, AllocError>
    ensures { IfOk result (λ steps. AreSteps steps.items words.now) }
{
    let mut steps = SmallVec::new(alloc);
    steps.push(Step::any())?;
    steps.push(Step::one())?;
    for word in words {
        if has_word(steps.as_slice(), word) {
            continue;
        }
        steps.push(Step::word(word.as_bytes()))?;
    }
    Ok(steps)
}
