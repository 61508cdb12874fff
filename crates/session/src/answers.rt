//! The answers of the opening phases to a method, computed before any memory is allocated for them.

ghost use Rattle.std.specs.Prelude.{◌≡◌, ℕ, [], true, MatchBool};
ghost use Rattle.model.specs.Phases.{Session};
ghost use Rattle.model.specs.Opening as said;
ghost use Rattle.model.specs.Opening.{LogsIn};
ghost use Rattle.session.specs.Answers.{move_of, awaited_move, IsAnswer};

use crate::accepts;
use crate::sends::{close, open_ok, tune};
use model::{Method, Phase, Tuning, User, limits};

/// The answer of an opening phase: what is sent, and the phase after it.
#[derive(Drop)]
pub(crate) enum OpeningAnswer {
    /// Nothing is sent, and the session doesn't change.
    Nothing,
    /// Nothing is sent. The session awaits `connection.open` under these limits; `frame_max` is in bytes.
    Tunes { channel_max: u16, frame_max: u32 },
    /// `method` is sent on channel 0, and the session goes to `phase`.
    Says { method: Method, phase: Phase },
}

/// Returns a `connection.close` with reply code `code` that names `cause` as the method that caused it.
fn refuse(code: u16, cause: &Method) -> OpeningAnswer
    ensures is { (c : ℕ) (s : Session) → move_of c s result ≡ said.closes_with c s code cause.now }
    ensures fits { IsAnswer result }
{
    OpeningAnswer::Says {
        method: close(code, cause.ids()),
        phase: Phase::Closing,
    }
}

/// Returns whether the server accepts the limits of this tune-ok, and its heartbeat is 0.
fn is_taken(tuning: &Tuning) -> bool
    ensures { result ≡ said.is_taken tuning.now }
{
    let in_range = tuning.frame_max == 0 || tuning.frame_max >= 4096 && tuning.frame_max <= 131_072;
    tuning.channel_max <= limits::CHANNEL_MAX && in_range && tuning.heartbeat == 0
}

/// Returns the limits that the accepted tune-ok `tuning` sets; a 0 in it means the server's own limit.
fn tune_by(tuning: &Tuning) -> OpeningAnswer
    requires { said.is_taken tuning.now ≡ true }
    ensures is { (c : ℕ) (s : Session) → move_of c s result ≡ record { sends = []; next = said.tuned tuning.now } }
    ensures fits { IsAnswer result }
{
    OpeningAnswer::Tunes {
        channel_max: if tuning.channel_max == 0 {
            limits::CHANNEL_MAX
        } else {
            tuning.channel_max
        },
        frame_max: if tuning.frame_max == 0 {
            131_072
        } else {
            tuning.frame_max
        },
    }
}

/// Answers a method on channel 0 while start-ok is awaited. `is_user` is whether `method` is a valid login.
fn at_start(method: &Method, is_user: bool) -> OpeningAnswer
    ensures is { (c : ℕ) (s : Session) → move_of c s result ≡ said.at_start c is_user s method.now }
    ensures fits { IsAnswer result }
{
    match method {
        Method::ConnectionStartOk(_) if is_user => OpeningAnswer::Says {
            method: tune(),
            phase: Phase::Tune,
        },
        Method::ConnectionStartOk(_) => refuse(403, method),
        _ => refuse(503, method),
    }
}

/// Answers a method on channel 0 while tune-ok is awaited.
fn at_tune(method: &Method) -> OpeningAnswer
    ensures is { (c : ℕ) (s : Session) → move_of c s result ≡ said.at_tune c s method.now }
    ensures fits { IsAnswer result }
{
    match method {
        Method::ConnectionTuneOk(tuning) if is_taken(tuning) => tune_by(tuning),
        Method::ConnectionTuneOk(_) => refuse(530, method),
        _ => refuse(503, method),
    }
}

/// Answers a method on channel 0 while `connection.open` is awaited.
fn at_open(method: &Method) -> OpeningAnswer
    ensures is { (c : ℕ) (s : Session) → move_of c s result ≡ said.at_open c s method.now }
    ensures fits { IsAnswer result }
{
    match method {
        Method::ConnectionOpen(open) if open.virtual_host.as_bytes() == b"/".as_slice() =>
            OpeningAnswer::Says {
                method: open_ok(),
                phase: Phase::Running,
            },
        Method::ConnectionOpen(_) => refuse(530, method),
        _ => refuse(503, method),
    }
}

/// Answers a method on channel 0, other than `connection.close`, by the table of `phase`.
fn awaited(phase: Phase, method: &Method, is_user: bool) -> OpeningAnswer
    ensures is { (c : ℕ) (s : Session) → move_of c s result ≡ awaited_move c is_user s phase method.now }
    ensures fits { IsAnswer result }
{
    match phase {
        Phase::Start => at_start(method, is_user),
        Phase::Tune => at_tune(method),
        Phase::Open => at_open(method),
        _ => OpeningAnswer::Nothing,
    }
}

/// Returns whether `phase` awaits start-ok and `method` is a start-ok that logs in one of `users`.
pub(crate) fn logs_in(users: &[User], phase: Phase, method: &Method) -> bool
    ensures { MatchBool result (LogsIn users.now phase method.now) (LogsIn users.now phase method.now → ⊥) }
{
    match (phase, method) {
        (Phase::Start, Method::ConnectionStartOk(start)) => accepts(
            users,
            start.mechanism.as_bytes(),
            start.response.as_bytes(),
        ),
        _ => false,
    }
}

/// Answers a method in one of the phases that await start-ok, tune-ok or open. In any other phase nothing is sent.
pub(crate) fn answer_to(phase: Phase, channel: u16, method: &Method, is_user: bool) -> OpeningAnswer
    ensures is { (c : ℕ) (s : Session) → move_of c s result ≡ said.opening_move c is_user s phase channel method.now }
    ensures fits { IsAnswer result }
{
    if !matches!(phase, Phase::Start | Phase::Tune | Phase::Open) {
        return OpeningAnswer::Nothing;
    }
    if channel != 0 {
        return refuse(503, method);
    }
    match method {
        Method::ConnectionClose(_) => OpeningAnswer::Says {
            method: Method::ConnectionCloseOk,
            phase: Phase::Over,
        },
        _ => awaited(phase, method, is_user),
    }
}
