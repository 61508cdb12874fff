//! Theorems about the definitions of `model`: each is the contract of a function with an empty body.
//!
//! They say what every run of the broker keeps, by the definitions alone; what the code does is shown elsewhere, by contracts
//! in the same words. Start with [`headline`]. Each statement is a definition in `specs/`, which also has its premises: that
//! the configurations in force are sound, that commands have a spelling, and what was in the queues at the beginning.
#![tactic(auto)]

ghost use Rattle.std.specs.Prelude.{◌≡◌};
ghost use Rattle.laws.specs.Accounts.{AccountsRefuse, DeliveriesAreAccountedFor};
ghost use Rattle.laws.specs.Agreeing.{AgreementRefuses, BrokersStayAgreed};
ghost use Rattle.laws.specs.Alone.{SoundForWords};
ghost use Rattle.laws.specs.Carrying.{MessagesStayCarried, SendsAreOwn};
ghost use Rattle.laws.specs.Confirming.{ConfirmsRefuse};
ghost use Rattle.laws.specs.Consumers.{ConsumersAreMade, ConsumersStayNamed, DeliveriesAreAddressed, NextTagsAreFound, PlaysStayNamed, WorldsStayNamed};
ghost use Rattle.laws.specs.Consistency.{PlaysStayConsistent, WorldsStayConsistent};
ghost use Rattle.laws.specs.Deaths.{DeathsRefuse, WorkedDeaths};
ghost use Rattle.laws.specs.Delivery.{OneReading, HeadlineHolds, PumpsKeep, TurnsConfirm, TurnsKeep};
ghost use Rattle.laws.specs.OneStep.{EveryRunBalances, EveryRunCounts, EveryRunStays};
ghost use Rattle.laws.specs.Forms.{BodiesAreCut, FirstDecides, MessagesCome};
ghost use Rattle.laws.specs.Openings.{OpeningsReadByPhase};
ghost use Rattle.laws.specs.Order.{EnteringIsFresh, GivenAfterThoseAhead, GivenInOrder, HeldAreGiven, MarksAreGiven};
ghost use Rattle.laws.specs.Promises.{AckedEnterOnce, AcksAreAcked, CausesAreShown, ForbiddenAreNotEntered, ForbiddenAreNotEnteredAtEvents};
ghost use Rattle.laws.specs.Promises.{GivenAsPublished, LettersComeAsRouted, LettersComeOnce, NacksAreNacked, OriginsAreShown};
ghost use Rattle.laws.specs.Promises.{PublishesEnterAsRouted, RunsKeepEvents};
ghost use Rattle.laws.specs.Rows.{WordsOfKeys, FirstInput, FirstOutput, BadEnd, TooLargeContent, HeadlineRefuses, FirstConsumer, RefusedConsumes, FullQueues};
ghost use Rattle.laws.specs.Reloading.{HistoriesKeep};
ghost use Rattle.laws.specs.Tracing.{KeptAreSafe, MessagesStayKept, MessagesStayTraced, NoEventMarks, ReloadsKeep, TracedAreSafe};
ghost use Rattle.laws.specs.Streams.{CuttingDoesNotMatter, FaultsStay, GoingOnStays, FirstBytesComeFirst, TuningDoesNotMatter};
ghost use Rattle.laws.specs.Unkept.{UnkeptIsUnseen};
ghost use Rattle.model.specs.Guarantee.{Guarantee};
ghost use Rattle.model.specs.State.{Config};
ghost use Rattle.model.specs.Topology.{Topology};
ghost use Rattle.model.specs.Words.{Text, words};

/// No two keys have the same words.
pub fn keys_differ_by_words()
    ensures { (a b : Text) → words a ≡ words b → a ≡ b }
{}

/// A guarantee whose pattern has no wildcard holds if its promise is kept for the pattern as a key.
pub fn word_patterns_are_sound()
    ensures { (t : Topology) (g : Guarantee) → SoundForWords t g }
{}

/// In every run, at each event every queue balances by the event's own notes, and the next event begins with the state after it.
pub fn runs_balance_event_by_event()
    ensures { EveryRunStays }
{}

/// In every run no message in a queue has a number above that of the publishes counted, if this is true at its beginning.
pub fn runs_count_their_messages()
    ensures { EveryRunCounts }
{}

/// In every run, for each queue and publish number, as many messages were in the queue or entered it as left it or are in it at the end.
pub fn runs_balance()
    ensures { EveryRunBalances }
{}

/// In every run each publish confirmed by ack entered every queue that a guarantee promises for it, exactly once.
pub fn acked_publishes_enter_once()
    ensures { AckedEnterOnce }
{}

/// In every run the acks sent to a connection are those of its publishes confirmed by ack, one for one and in order.
pub fn acks_are_those_noted()
    ensures { AcksAreAcked }
{}

/// In every run the nacks sent to a connection are those of its publishes confirmed by nack, one for one and in order.
pub fn nacks_are_those_noted()
    ensures { NacksAreNacked }
{}

/// In every run no message, as a publish or a dead letter, entered a queue that was forbidden to its publish.
pub fn forbidden_queues_are_not_entered()
    ensures { ForbiddenAreNotEntered }
{}

/// In every run each event shows by itself that no message entered a queue that was forbidden to it.
pub fn no_event_enters_a_forbidden_queue()
    ensures { ForbiddenAreNotEnteredAtEvents }
{}

/// In every run a message left a queue only by an event that takes it out.
pub fn what_leaves_has_a_cause()
    ensures { CausesAreShown }
{}

/// In every run a message entered a queue only by its own publish, or as the dead letter of a message that was rejected in its queue.
pub fn what_enters_has_an_origin()
    ensures { OriginsAreShown }
{}

/// In every run each publish entered each queue to which it was routed, once, unless that queue was full. It was acked only if none was full.
pub fn publishes_enter_as_routed()
    ensures { PublishesEnterAsRouted }
{}

/// In every run the dead letter of each rejected message entered each queue to which
/// it goes on, unless that queue was full; no other dead letter entered a queue.
pub fn rejected_messages_go_on()
    ensures { LettersComeAsRouted }
{}

/// In every run, for each number, at most as many dead letters entered a queue at an event as messages were rejected at it.
pub fn a_rejection_makes_one_letter()
    ensures { LettersComeOnce }
{}

/// In every run from empty queues, each message is given out with the body and the properties of its publish, except for headers that tell of its deaths.
pub fn messages_are_given_as_published()
    ensures { GivenAsPublished }
{}

/// In every run the events keep all promises of `KeepsEvents`: those above, except the ones about acks, nacks and contents that are sent,
/// and also those about publish numbers, redelivered marks, the channels of other connections, and the balance of every queue.
pub fn runs_keep_events()
    ensures { RunsKeepEvents }
{}

/// The commands that a stream has yielded are the first of all that it yields after more bytes have come.
pub fn cutting_does_not_matter()
    ensures { CuttingDoesNotMatter }
{}

/// The commands that a stream has yielded stay the same when more bytes come, also if another size of frames was agreed on meanwhile.
pub fn tuning_does_not_matter()
    ensures { TuningDoesNotMatter }
{}

/// A fault of a stream stays, whatever bytes follow.
pub fn faults_stay()
    ensures { FaultsStay }
{}

/// Frames that complete no command are put together in the same way, whatever bytes follow.
pub fn going_on_stays()
    ensures { GoingOnStays }
{}

/// A stream that awaits the first eight bytes yields them before all else. After them, and if it doesn't await them, all its commands are made of frames.
pub fn first_bytes_come_first()
    ensures { FirstBytesComeFirst }
{}

/// Whatever arrives, the first eight bytes of a connection are still to be performed
/// exactly while its phase is Header; in any other phase frames alone are read.
pub fn openings_read_by_phase()
    ensures { OpeningsReadByPhase }
{}

/// Whatever arrives, a world stays consistent. The broker has exactly the connections that run. Exactly those are paused whose
/// output has reached the bound, and each has the channel-max that was agreed on. No message in a queue has a number
/// above that of the publishes counted; each can be given out, and may be in that queue.
pub fn worlds_stay_consistent()
    ensures worlds { WorldsStayConsistent }
    ensures plays { PlaysStayConsistent }
{}

/// Whatever happens, each message that is held in a queue is unacknowledged on the channel that holds it, under a tag of its
/// own that is below the next one, and the message of each unacknowledged delivery is held in its queue by that channel.
pub fn brokers_stay_agreed()
    ensures { BrokersStayAgreed }
{}

/// In every run from the empty broker, held messages and unacknowledged deliveries agree, and a channel is open only on a connection that runs,
/// which logged in. A command settles deliveries as the client asked. No delivery is forgotten: it is still unacknowledged, or its message left its
/// queue, or is ready again in its place. A get is answered, a purge leaves no ready message, and a publish is noted, and in confirm mode confirmed.
pub fn deliveries_are_accounted_for()
    ensures { DeliveriesAreAccountedFor }
{}

/// Whatever happens under a well-formed topology, each message in a queue can be given out: its content
/// is that of a publish, which is not too large, or grew once by the fields of its first death.
pub fn messages_stay_carried()
    ensures { MessagesStayCarried }
{}

/// While the topology stays the same, each message in a queue came there by the route of its publish and by deaths.
pub fn messages_stay_traced()
    ensures { MessagesStayTraced }
{}

/// Whatever happens, each message is in a queue of the topology, and dead letters can bring it from there to no queue that a guarantee
/// in force forbids it. Its own queue isn't forbidden either, unless it was in a queue when the last reload was done.
pub fn messages_stay_kept()
    ensures { MessagesStayKept }
{}

/// After a reload without an obstacle, what [`messages_stay_kept`] says is still true, under the configuration that it put in force.
pub fn reloads_keep()
    ensures { ReloadsKeep }
{}

/// Events keep the promises, each under the configuration in force at it, whatever is reloaded between them. No message
/// enters a queue that the configuration in force forbids it, even if the message was published under an earlier one.
pub fn histories_keep()
    ensures { HistoriesKeep }
{}

/// No message that is traced is in a queue where a guarantee forbids it, nor can dead letters bring it to one.
pub fn traced_messages_are_safe()
    ensures { TracedAreSafe }
{}

/// If no message is marked as one that was in a queue when a reload was done, no event marks one.
pub fn events_mark_no_message()
    ensures { NoEventMarks }
{}

/// If no message in a queue was there when a reload was done, none is in a queue that a guarantee forbids it, nor can dead letters bring it to one.
pub fn kept_messages_are_safe()
    ensures { KeptAreSafe }
{}

/// What is sent at one event can be put out, in frames of any size, and has at most 1,060,000 bytes.
pub fn sends_can_be_put_out()
    ensures { SendsAreOwn }
{}

/// Whatever happens, the consumers of each channel take from queues that exist, and no two have the same tag or number.
pub fn consumers_stay_named()
    ensures { ConsumersStayNamed }
{}

/// What [`consumers_stay_named`] says is true of every world, whatever is done in it and whatever arrives.
pub fn worlds_stay_named()
    ensures worlds { WorldsStayNamed }
    ensures plays { PlaysStayNamed }
{}

/// A consumer is made only by a consume, under the next number of its channel.
pub fn consumers_are_made()
    ensures { ConsumersAreMade }
{}

/// The tag that the server makes for a consumer is the next that is not in use on its channel.
pub fn next_tags_are_found()
    ensures { NextTagsAreFound }
{}

/// What is delivered to a consumer can be addressed: its tags, its names and its key can be spelled.
pub fn deliveries_are_addressed()
    ensures { DeliveriesAreAddressed }
{}

/// In every run messages are first given out of a queue, to gets and to consumers, in the order in which they
/// entered it, and each only when none ahead of it is ready. A message comes to be held only by being given out.
pub fn messages_are_given_in_order()
    ensures in_order { GivenInOrder }
    ensures ahead { GivenAfterThoseAhead }
    ensures held { HeldAreGiven }
{}

/// What enters a queue is at its end, in the order of the notes, and not marked as redelivered. Only a message given out of its queue gets that mark.
pub fn marks_mean_deliveries()
    ensures fresh { EnteringIsFresh }
    ensures marked { MarksAreGiven }
{}

/// A message enters a queue, ready, once for each time that the queue is among its targets, and not at all if the queue is full.
pub fn messages_come_as_routed()
    ensures { MessagesCome }
{}

/// The pieces of a body are its bytes. None is empty, and each but the last is as long as a frame allows.
pub fn bodies_are_cut()
    ensures { BodiesAreCut }
{}

/// The first connection.close or close-ok that was sent decides the phase of its connection; without one the connection runs.
pub fn first_close_decides()
    ensures { FirstDecides }
{}

/// A client can read an output in one way only.
pub fn one_reading()
    ensures { OneReading }
{}

/// Nobody sees that a content was only counted. In a phase other than Running, and on a
/// channel that is not open, a publish is answered as one whose content is too large.
pub fn unkept_contents_are_unseen()
    ensures { UnkeptIsUnseen }
{}

/// A turn, which performs a connection's next command or its fault, keeps the promises of its own events.
pub fn turns_keep()
    ensures { TurnsKeep }
{}

/// What a turn puts out has the acks and the nacks of its own publishes.
pub fn turns_confirm()
    ensures { TurnsConfirm }
{}

/// A pump, which makes one delivery if any can be made, keeps the promises of its own events.
pub fn pumps_keep()
    ensures { PumpsKeep }
{}

/// Certified delivery: whatever arrives, the headline holds of the outputs and the notes.
pub fn headline()
    ensures { (f : Config) → HeadlineHolds f }
{}

/// Worked examples of the definitions: the bytes of the first publish, full queues,
/// held and unacknowledged messages, dead letters, and what the promises refuse.
pub fn worked_examples()
    // Keys, bytes and contents that are too large.
    ensures words { WordsOfKeys }
    ensures input { FirstInput }
    ensures output { FirstOutput }
    ensures bad_end { BadEnd }
    ensures large { TooLargeContent }
    // What the headline refuses.
    ensures refused { HeadlineRefuses }
    // Consumers and full queues.
    ensures consumer { FirstConsumer }
    ensures refused_consumers { RefusedConsumes }
    ensures full_queues { FullQueues }
    // What the promises about deliveries, publishes and entries refuse.
    ensures agreement { AgreementRefuses }
    ensures accounts { AccountsRefuse }
    ensures confirms { ConfirmsRefuse }
    // Dead letters, and what the definitions refuse of them.
    ensures deaths { WorkedDeaths }
    ensures refused_deaths { DeathsRefuse }
{}
