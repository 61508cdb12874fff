//! The causes for which a file is refused, and their numbers.

ghost use Rattle.std.specs.Prelude.{◌≡◌};
ghost use Rattle.json_file.specs.Causes.{cause_number};

use std::alloc::{AllocError, AllocFailed};

/// Why a file of definitions, guarantees or certificates is refused. Of several causes the lowest-numbered one is reported.
/// Guarantees have only the causes 1, 2, 5, 9, 10 and 14, certificates only 1, 2, 10 and 14, as every JSON file may.
#[derive(Clone, Copy, PartialEq, Eq, Debug, Drop)]
pub enum FileCause {
    /// 1: the file is not JSON.
    NotJson,
    /// 2: a required member is missing; a member, an array or an argument is of the wrong type; or a number is out of its range.
    /// Guarantees: a mode is neither `reaches` nor `never`. Certificates: the file is not an array of objects that each have
    /// exactly the members of a certificate.
    Malformed,
    /// 3: there is not exactly one vhost, or it is not `/`.
    OtherVhost,
    /// 4: two users, two queues or two exchanges have the same name.
    Repeated,
    /// 5: the source or the destination of a binding doesn't exist. Guarantees: an exchange or a queue doesn't exist; the default exchange `""` always does.
    Absent,
    /// 6: an exchange has another type than `direct`, `fanout` and `topic`.
    OtherType,
    /// 7: the file asks for something that isn't supported.
    ///
    /// That is an argument or a member that is not listed, arguments of a binding, another destination type, auto-delete,
    /// another overflow, a dead-letter key without a dead-letter exchange, or a policy, parameter or topic permission.
    Unsupported,
    /// 8: a queue has `x-max-length` or `x-max-length-bytes` without `x-overflow`.
    NoOverflow,
    /// 9: a name, a key or a pattern is malformed.
    ///
    /// A binding key, a dead-letter key, a pattern (of `except` too) or a queue name has an empty word, over 31 words or
    /// over 255 bytes; an exchange or a queue has no name; or a name has over 255 bytes.
    Worded,
    /// 10: there is too much of something.
    ///
    /// There are over 256 exchanges, 256 queues, 4,096 bindings or 256 users; there are over 64 guarantees, or one has over
    /// 16 `except` patterns; or the file has over 16,777,216 bytes.
    TooMany,
    /// 11: an alternate exchange doesn't exist, or a dead-letter exchange doesn't exist and isn't the default one.
    NoExchange,
    /// 12: a user doesn't have exactly one permission, a permission is of no user, or a permission is another one than to configure nothing, and
    /// to write and read everything.
    OtherPermission,
    /// 13: a password is hashed in another way, or its hash is not the Base64 of 36 bytes.
    OtherHash,
    /// 14: an allocation failed.
    Memory,
}

impl FileCause {
    /// Returns the number of the cause, from 1 to 14; it is the same for every kind of file.
    pub fn number(self) -> u8
        ensures { result ≡ cause_number self }
    {
        match self {
            FileCause::NotJson => 1,
            FileCause::Malformed => 2,
            FileCause::OtherVhost => 3,
            FileCause::Repeated => 4,
            FileCause::Absent => 5,
            FileCause::OtherType => 6,
            FileCause::Unsupported => 7,
            FileCause::NoOverflow => 8,
            FileCause::Worded => 9,
            FileCause::TooMany => 10,
            FileCause::NoExchange => 11,
            FileCause::OtherPermission => 12,
            FileCause::OtherHash => 13,
            FileCause::Memory => 14,
        }
    }
}

impl From<AllocError> for FileCause {
    ghost use Rattle.std.specs.Prelude.{◌≡◌};
    ghost use Rattle.json_file.specs.declared.causes.FileCause.TheVariants.{Memory};

    ghost from_gives = { λ _ r. r ≡ Memory };

    fn from(_: AllocError) -> FileCause {
        FileCause::Memory
    }
}

impl<T: Drop> From<AllocFailed<T>> for FileCause {
    ghost use Rattle.std.specs.Prelude.{◌≡◌};
    ghost use Rattle.json_file.specs.declared.causes.FileCause.TheVariants.{Memory};

    ghost from_gives = { λ _ r. r ≡ Memory };

    fn from(_: AllocFailed<T>) -> FileCause {
        FileCause::Memory
    }
}
