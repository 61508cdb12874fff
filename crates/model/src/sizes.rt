//! The sizes in bytes of values that are passed about or kept in great numbers, proved.
//!
//! A large value is kept once, behind a shared pointer, since a value that is passed is copied at each call.

use crate::bodies::Body;
use crate::contents::{Content, Properties};
use crate::deliveries::Delivery;
use crate::events::{Command, Event, Send};
use crate::messages::{Entry, Message};
use crate::methods::{Method, Publish};
use crate::notes::Note;
use crate::texts::Text;

const _: () = prove!(size_of::<Text>() == 24);

const _: () = prove!(size_of::<Body>() == 48);

const _: () = prove!(size_of::<Properties>() == 16);

const _: () = prove!(size_of::<Content>() == 64);

const _: () = prove!(size_of::<Message>() == 16);

const _: () = prove!(size_of::<Entry>() <= 64);

const _: () = prove!(size_of::<Delivery>() <= 40);

const _: () = prove!(size_of::<Publish>() <= 64);

const _: () = prove!(size_of::<Note>() <= 96);

const _: () = prove!(size_of::<Method>() <= 104);

const _: () = prove!(size_of::<Command>() <= 144);

const _: () = prove!(size_of::<Event>() <= 200);

const _: () = prove!(size_of::<Send>() <= 200);
