//! Builds the steps that answer a command.

ghost use Rattle.std.specs.Prelude.{◌≡◌, ◌<◌, [], IfOk, length, vec_len, vec_capacity};
ghost use Rattle.model.specs.Step.{select_sends, purge_sends, declare_sends, queue_declared, consume_sends, cancel_sends};
ghost use Rattle.replies.specs.Sent.{AreAddressed};

use crate::answers::{cancel_ok, consume_ok, purge_ok, queue_ok, select_ok};
use crate::steps::Step;
use model::{Cancel, QueueDeclare, Text};
use std::alloc::{AllocError, Global};

/// Builds the step that sends `confirm.select-ok`, or nothing if `no_wait` is set.
pub fn answer_select(
    alloc: Global,
    connection: u64,
    channel: u16,
    no_wait: bool,
) -> Result<Step, AllocError>
    ensures sends { IfOk result (λ s. s.sends.items ≡ select_sends connection channel no_wait) }
    ensures notes { IfOk result (λ s. s.notes.items ≡ []) }
    ensures addressed { IfOk result (λ s. AreAddressed connection s.sends.items) }
{
    if no_wait {
        Ok(Step::nothing(alloc))
    } else {
        Step::sending(alloc, select_ok(connection, channel))
    }
}

/// Builds the step that sends `queue.purge-ok` with the number of messages removed, or nothing if `no_wait` is set.
pub fn answer_purge(
    alloc: Global,
    connection: u64,
    channel: u16,
    no_wait: bool,
    count: usize,
) -> Result<Step, AllocError>
    ensures sends { IfOk result (λ s. s.sends.items ≡ purge_sends connection channel no_wait count) }
    ensures notes { IfOk result (λ s. s.notes.items ≡ []) }
    ensures addressed { IfOk result (λ s. AreAddressed connection s.sends.items) }
{
    if no_wait {
        Ok(Step::nothing(alloc))
    } else {
        Step::sending(alloc, purge_ok(connection, channel, count))
    }
}

/// Builds the step that sends `queue.declare-ok` with the counts `ready` and `consumers`, or nothing if the `no_wait` of `declare` is set.
pub fn answer_queue_declare(
    alloc: Global,
    connection: u64,
    channel: u16,
    declare: &QueueDeclare,
    ready: usize,
    consumers: usize,
) -> Result<Step, AllocError>
    ensures sends { IfOk result (λ s. s.sends.items ≡ declare_sends connection channel declare.now.no_wait (queue_declared declare.now.queue ready consumers)) }
    ensures notes { IfOk result (λ s. s.notes.items ≡ []) }
    ensures addressed { IfOk result (λ s. length declare.now.queue < 256 → AreAddressed connection s.sends.items) }
{
    if declare.no_wait {
        Ok(Step::nothing(alloc))
    } else {
        let queue = declare.queue.clone()?;
        Step::sending(
            alloc,
            queue_ok(connection, channel, queue, ready, consumers),
        )
    }
}

/// Appends `basic.consume-ok` to the sends of `step` unless `no_wait` is set. The step sends nothing before, and has capacity for one send.
pub fn answer_consume(step: &mut Step, connection: u64, channel: u16, no_wait: bool, tag: Text)
    requires empty { step.old.sends.items ≡ [] }
    requires room { vec_len step.old.sends < vec_capacity step.old.sends }
    ensures sends { step.new.sends.items ≡ consume_sends connection channel no_wait tag }
    ensures notes { step.new.notes.items ≡ step.old.notes.items }
    ensures addressed { length tag < 256 → AreAddressed connection step.new.sends.items }
{
    if !no_wait {
        step.sends
            .push_reserved(consume_ok(connection, channel, tag));
    }
}

/// Builds the step that sends `basic.cancel-ok`, or nothing if `no_wait` is set.
pub fn answer_cancel(
    alloc: Global,
    connection: u64,
    channel: u16,
    cancel: &Cancel,
) -> Result<Step, AllocError>
    ensures sends { IfOk result (λ s. s.sends.items ≡ cancel_sends connection channel cancel.now.no_wait cancel.now.consumer_tag) }
    ensures notes { IfOk result (λ s. s.notes.items ≡ []) }
    ensures addressed { IfOk result (λ s. length cancel.now.consumer_tag < 256 → AreAddressed connection s.sends.items) }
{
    if cancel.no_wait {
        Ok(Step::nothing(alloc))
    } else {
        let tag = cancel.consumer_tag.clone()?;
        Step::sending(alloc, cancel_ok(connection, channel, tag))
    }
}
