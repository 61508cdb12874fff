//! Prints transcripts. Start with [`transcript_text`].

ghost use Rattle.std.specs.Prelude.{◌≡◌, ◌++◌, ◌∷◌, [], codes, decimal, IfOk, string_bytes, OnErr, OnOk};
ghost use Rattle.scripts.specs.Transcript.{hex_word, name_word, confirm_word, answer_word, way_word, cause_word, line, obstacle_line, note_line};
ghost use Rattle.scripts.specs.Transcript.{over_line, publish_line, shown_lines, shown_from, note_lines, transcript_text};

use model::{Answer, Cause, Note, Obstacle, Way};
use runs::{Shown, Transcript};
use serde_json::Value;
use std::alloc::{AllocError, Global};

/// Returns `bytes` in lower-case hex, or `-` if there are none.
fn hex_word(alloc: Global, bytes: &[u8]) -> Result<String, AllocError>
    ensures { IfOk result (λ word. string_bytes word ≡ hex_word bytes.now) }
{
    if bytes.is_empty() {
        return String::from_str(alloc, "-");
    }
    hex::encode(alloc, bytes)
}

/// Returns `name` as a compact JSON string, in quotation marks and without an end of line.
///
/// Names come from a file and are UTF-8; otherwise each invalid sequence is printed as U+FFFD. Fails only if an allocation fails.
pub fn name_word(alloc: Global, name: &[u8]) -> Result<String, AllocError>
    ensures { IfOk result (λ word. string_bytes word ≡ name_word name.now) }
{
    Value::String(String::from_utf8_lossy(alloc, name)?).to_string(alloc)
}

/// Returns a confirm's number, or `-` outside confirm mode.
fn confirm_word(alloc: Global, confirm: Option<u64>) -> Result<String, AllocError>
    ensures { IfOk result (λ word. string_bytes word ≡ confirm_word confirm) }
{
    match confirm {
        Some(n) => format!(in alloc; "{n}"),
        None => String::from_str(alloc, "-"),
    }
}

fn answer_word(answer: Answer) -> &'static str
    ensures { result.now ≡ answer_word answer }
{
    match answer {
        Answer::Ack => "ack",
        Answer::Nack => "nack",
    }
}

fn way_word(way: Way) -> &'static str
    ensures { result.now ≡ way_word way }
{
    match way {
        Way::Publish => "publish",
        Way::Dead => "dead",
    }
}

fn cause_word(cause: Cause) -> &'static str
    ensures { result.now ≡ cause_word cause }
{
    match cause {
        Cause::Acked => "acked",
        Cause::Auto => "auto",
        Cause::Rejected => "rejected",
        Cause::Purged => "purged",
    }
}

/// Returns the words of a publish's line after its numbers, and the end of the line.
fn publish_words(
    alloc: Global,
    exchange: &[u8],
    key: &[u8],
    confirm: Option<u64>,
) -> Result<String, AllocError>
    ensures { IfOk result (λ text. string_bytes text ≡ line (name_word exchange.now ∷ hex_word key.now ∷ confirm_word confirm ∷ [])) }
{
    let exchange = name_word(alloc, exchange)?;
    let key = hex_word(alloc, key)?;
    let confirm = confirm_word(alloc, confirm)?;
    format!(in alloc; "{exchange} {key} {confirm}\n")
}

/// Returns the line of a publish: its number, its connection and its channel, then `rest`.
fn publish_line(
    alloc: Global,
    number: u64,
    connection: u64,
    channel: u16,
    rest: &str,
) -> Result<String, AllocError>
    ensures { IfOk result (λ text. string_bytes text ≡ publish_line number connection channel rest.now) }
{
    format!(in alloc; "published {number} {connection} {channel} {rest}")
}

/// Returns the line of message `number` that entered `queue`.
fn entered_line(alloc: Global, number: u64, queue: &[u8], way: Way) -> Result<String, AllocError>
    ensures { IfOk result (λ text. string_bytes text ≡ line (codes "entered" ∷ decimal number ∷ name_word queue.now ∷ way_word way ∷ [])) }
{
    let queue = name_word(alloc, queue)?;
    let way = way_word(way);
    format!(in alloc; "entered {number} {queue} {way}\n")
}

/// Returns the line of message `number` that the full `queue` refused.
fn refused_line(alloc: Global, number: u64, queue: &[u8]) -> Result<String, AllocError>
    ensures { IfOk result (λ text. string_bytes text ≡ line (codes "refused" ∷ decimal number ∷ name_word queue.now ∷ [])) }
{
    let queue = name_word(alloc, queue)?;
    format!(in alloc; "refused {number} {queue}\n")
}

/// Returns the line of publish `number` that was confirmed.
fn confirmed_line(alloc: Global, number: u64, answer: Answer) -> Result<String, AllocError>
    ensures { IfOk result (λ text. string_bytes text ≡ line (codes "confirmed" ∷ decimal number ∷ answer_word answer ∷ [])) }
{
    let answer = answer_word(answer);
    format!(in alloc; "confirmed {number} {answer}\n")
}

/// Returns the line of message `number` that left `queue`.
fn left_line(alloc: Global, number: u64, queue: &[u8], cause: Cause) -> Result<String, AllocError>
    ensures { IfOk result (λ text. string_bytes text ≡ line (codes "left" ∷ decimal number ∷ name_word queue.now ∷ cause_word cause ∷ [])) }
{
    let queue = name_word(alloc, queue)?;
    let cause = cause_word(cause);
    format!(in alloc; "left {number} {queue} {cause}\n")
}

/// Returns the line of a reload that is refused because it would remove `queue`, which is in use.
fn in_use_line(alloc: Global, queue: &[u8]) -> Result<String, AllocError>
    ensures { IfOk result (λ text. string_bytes text ≡ line (codes "reload refused in-use" ∷ name_word queue.now ∷ [])) }
{
    let queue = name_word(alloc, queue)?;
    format!(in alloc; "reload refused in-use {queue}\n")
}

/// Returns the line of a reload that is refused because it would break guarantee number `guarantee`.
fn breaks_line(
    alloc: Global,
    queue: &[u8],
    key: &[u8],
    guarantee: usize,
) -> Result<String, AllocError>
    ensures { IfOk result (λ text. string_bytes text ≡ line (codes "reload refused breaks" ∷ name_word queue.now ∷ hex_word key.now ∷ decimal guarantee ∷ [])) }
{
    let queue = name_word(alloc, queue)?;
    let key = hex_word(alloc, key)?;
    format!(in alloc; "reload refused breaks {queue} {key} {guarantee}\n")
}

/// Returns the line of a reload that `obstacle` stops. Fails only if an allocation fails.
pub fn obstacle_line(alloc: Global, obstacle: &Obstacle) -> Result<String, AllocError>
    ensures { IfOk result (λ text. string_bytes text ≡ obstacle_line obstacle.now) }
{
    match obstacle {
        Obstacle::InUse(queue) => in_use_line(alloc, queue.as_bytes()),
        Obstacle::Breaks {
            queue,
            key,
            guarantee,
        } => breaks_line(alloc, queue.as_bytes(), key.as_bytes(), *guarantee),
    }
}

/// Returns the line of a note.
fn note_line(alloc: Global, note: &Note) -> Result<String, AllocError>
    ensures { IfOk result (λ line. string_bytes line ≡ note_line note.now) }
{
    match note {
        Note::Published {
            number,
            connection,
            channel,
            exchange,
            key,
            confirm,
        } => {
            let rest = publish_words(alloc, exchange.as_bytes(), key.as_bytes(), *confirm)?;
            publish_line(alloc, *number, *connection, *channel, rest.as_str())
        }
        Note::Entered { number, queue, way } => {
            entered_line(alloc, *number, queue.as_bytes(), *way)
        }
        Note::Refused { number, queue } => refused_line(alloc, *number, queue.as_bytes()),
        Note::Returned { number } => format!(in alloc; "returned {number}\n"),
        Note::Confirmed { number, answer } => confirmed_line(alloc, *number, *answer),
        Note::Left {
            number,
            queue,
            cause,
        } => left_line(alloc, *number, queue.as_bytes(), *cause),
        Note::Reloaded => String::from_str(alloc, "reload done\n"),
        Note::ReloadRefused(obstacle) => obstacle_line(alloc, obstacle),
    }
}

/// Appends `line`, which ends with its LF. Fails only if an allocation fails; `text` is unchanged then.
pub fn put_line(text: &mut Vec<u8>, line: String) -> Result<(), AllocError>
    ensures appended { OnOk result (text.new.items ≡ text.old.items ++ string_bytes line) }
    ensures kept { OnErr result (text.new.items ≡ text.old.items) }
{
    text.extend_from_slice(line.as_bytes())
}

/// Appends the line `over` if connection `number` is over or lost.
fn put_over(alloc: Global, text: &mut Vec<u8>, number: u64, shown: &Shown) -> Result<(), AllocError>
    ensures { OnOk result (text.new.items ≡ text.old.items ++ over_line number shown.now) }
{
    if shown.is_over() {
        put_line(text, format!(in alloc; "over {number}\n")?)?;
    }
    Ok(())
}

/// Returns the line with the whole output of connection `number`.
fn out_line(alloc: Global, number: u64, bytes: &[u8]) -> Result<String, AllocError>
    ensures { IfOk result (λ text. string_bytes text ≡ line (codes "out" ∷ decimal number ∷ hex_word bytes.now ∷ [])) }
{
    let bytes = hex_word(alloc, bytes)?;
    format!(in alloc; "out {number} {bytes}\n")
}

/// Appends the lines of connection `number`.
fn put_shown(
    alloc: Global,
    text: &mut Vec<u8>,
    number: u64,
    shown: &Shown,
) -> Result<(), AllocError>
    ensures { OnOk result (text.new.items ≡ text.old.items ++ shown_lines number shown.now) }
{
    put_line(text, out_line(alloc, number, shown.output())?)?;
    put_over(alloc, text, number, shown)
}

/// Appends the lines of all connections, which are numbered from 1.
fn put_connections(
    alloc: Global,
    text: &mut Vec<u8>,
    connections: &[Shown],
) -> Result<(), AllocError>
    ensures { OnOk result (text.new.items ≡ text.old.items ++ shown_from 1 connections.now) }
{
    let mut number = 1;
    for shown in connections {
        put_shown(alloc, text, number, shown)?;
        number += 1;
    }
    Ok(())
}

/// Appends a line for each note.
fn put_notes(alloc: Global, text: &mut Vec<u8>, notes: &[Note]) -> Result<(), AllocError>
    ensures { OnOk result (text.new.items ≡ text.old.items ++ note_lines notes.now) }
{
    for note in notes {
        put_line(text, note_line(alloc, note)?)?;
    }
    Ok(())
}

/// Prints a transcript. Each connection, by number, has a line with its whole output, and the line `over` if it is over or lost;
/// then each note has a line. Fails only if an allocation fails.
pub fn transcript_text(alloc: Global, transcript: &Transcript) -> Result<Vec<u8>, AllocError>
    ensures { IfOk result (λ text. text.items ≡ transcript_text transcript.now) }
{
    let mut text = Vec::new(alloc);
    put_connections(alloc, &mut text, transcript.connections())?;
    put_notes(alloc, &mut text, transcript.notes())?;
    Ok(text)
}
