//! Names the deliveries that a tag settles on a channel. Start with [`Span`].

/// What a tag settles on a channel, with the index at which the tag was found. If the channel changes, the span is what the tag settles after the
/// change. Source: AMQP 0-9-1, basic.ack, "delivery-tag" and "multiple".
#[derive(Clone, Copy, Drop)]
pub struct Span {
    pub tag: u64,
    pub multiple: bool,
    /// The index at which the unacknowledged delivery was found. It is looked at first; if another delivery is there the tag is searched for.
    pub(crate) place: usize,
}
