//! Certificates as plain data.

ghost use Rattle.std.specs.Prelude.{◌≡◌};
ghost use Rattle.state_walks.specs.Judged.{states_of};
ghost use Rattle.certificate.specs.Views.{certificate_with, form_view};

use crate::forms::Form;
use model::Text;
use std::marker::Model;

/// Evidence that a guarantee holds: the guarantee's texts, and states from which letters lead only to listed states, or to ones that the form
/// drops.
pub struct Certificate {
    form: Form,
    exchange: Text,
    mode: Text,
    pattern: Text,
    queue: Text,
    states: Vec<Vec<u64>>,
}

/// Not derived: a derived drop is expanded, and proved again, in each function that drops the value.
impl Drop for Certificate {
    fn drop(self) {
        let Certificate {
            form: _,
            exchange: _,
            mode: _,
            pattern: _,
            queue: _,
            states: _,
        } = self;
    }
}

impl Model for Certificate {
    ghost use Rattle.state_walks.specs.Judged.{states_of};
    ghost use Rattle.model.specs.Certificates.{Certificate as Shown};
    ghost use Rattle.certificate.specs.Views.{form_view};

    ghost Value = { Shown };

    ghost view = { λ c. record {
      form = form_view c.form;
      exchange = c.exchange;
      mode = c.mode;
      pattern = c.pattern;
      queue = c.queue;
      states = states_of c.states.items;
    } };
}

impl Certificate {
    /// Returns a certificate with these parts. They are not checked.
    pub fn new(
        form: Form,
        exchange: Text,
        mode: Text,
        pattern: Text,
        queue: Text,
        states: Vec<Vec<u64>>,
    ) -> Certificate
        ensures { result ≡ certificate_with form exchange mode pattern queue states.items }
    {
        Certificate {
            form,
            exchange,
            mode,
            pattern,
            queue,
            states,
        }
    }

    /// Returns which of the tracked patterns the states have numbers for.
    pub fn form(&self) -> &Form
        ensures { form_view result.now ≡ self.now.form }
    {
        &self.form
    }

    /// Returns the exchange of the certificate's guarantee.
    pub fn exchange(&self) -> &Text
        ensures { result.now ≡ self.now.exchange }
    {
        &self.exchange
    }

    /// Returns the name of the mode of the certificate's guarantee.
    pub fn mode(&self) -> &Text
        ensures { result.now ≡ self.now.mode }
    {
        &self.mode
    }

    /// Returns the pattern of the certificate's guarantee.
    pub fn pattern(&self) -> &Text
        ensures { result.now ≡ self.now.pattern }
    {
        &self.pattern
    }

    /// Returns the queue of the certificate's guarantee.
    pub fn queue(&self) -> &Text
        ensures { result.now ≡ self.now.queue }
    {
        &self.queue
    }

    pub fn states(&self) -> &[Vec<u64>]
        ensures { states_of result.now ≡ self.now.states }
    {
        self.states.as_slice()
    }
}
