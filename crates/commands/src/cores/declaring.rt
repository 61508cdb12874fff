//! Answers passive declares of queues. Source: AMQP 0-9-1, queue.declare, "passive".

use crate::cores::Core;
use crate::counts::Counts;
use model::QueueDeclare;
use replies::{Step, answer_queue_declare};
use std::alloc::{AllocError, Global};

impl Core {
    ghost use Rattle.std.specs.Prelude.{IfOk};
    ghost use Rattle.model.specs.Step.{Finds};
    ghost use Rattle.model.specs.declared.methods.Method.TheVariants.{QueueDeclare as DeclaresQueue};
    ghost use Rattle.model.specs.Grammar.{IsMethod};
    ghost use Rattle.commands.specs.State.{broker_of, topology_kept};
    ghost use Rattle.commands.specs.Counted.{AreCounted};
    ghost use Rattle.commands.specs.Judged.{IsQueueIndex};
    ghost use Rattle.replies.specs.Sent.{AreAddressed};

    /// Replies with `queue.declare-ok` for the queue at `index` unless `no_wait` is set: with the number of its ready messages and of its
    /// consumers, on all channels together, as `counts` has it.
    pub(crate) fn find_queue<N: Counts>(
        &self,
        alloc: Global,
        connection: u64,
        channel: u16,
        index: usize,
        declare: &QueueDeclare,
        counts: &N,
    ) -> Result<Step, AllocError>
        requires index { IsQueueIndex (topology_kept self.now) declare.now.queue index }
        requires counted { AreCounted self.now (N.is_count counts.now) }
        ensures ok { IfOk result (λ s. Finds (broker_of self.now) connection channel declare.now s.sends.items s.notes.items (broker_of self.now)) }
        ensures addressed { IfOk result (λ s. IsMethod (DeclaresQueue declare.now) → AreAddressed connection s.sends.items) }
    {
        self.depot.ghost_is_whole();
        self.depot.ghost_is_named(index);
        let ready = self.depot.ready_at(index);
        let consumers = counts.count(index);
        answer_queue_declare(alloc, connection, channel, declare, ready, consumers)
    }
}
