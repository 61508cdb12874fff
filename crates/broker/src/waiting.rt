//! No consumer starves.

ghost use Rattle.broker.specs.Waiting.{NobodyWaits};

/// Shows that no consumer and no queue starves. A consumer is passed over by fewer deliveries of its queue than the queue has consumers, and a queue by
/// fewer deliveries than there are queues, not counting one that was owed to another at the start. Does nothing at run time.
pub fn ghost_nobody_waits()
    ensures { NobodyWaits }
{}
