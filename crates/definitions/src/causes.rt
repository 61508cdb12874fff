//! The conditions on a definitions file, by the number of the cause for which it is refused otherwise.

ghost use Rattle.std.specs.Prelude.{codes, ◌≡◌, ◌⊎◌, All, Decides, List, ℕ, Some, None};
ghost use Rattle.definitions.specs.States.{kind_named, topology_of};
ghost use Rattle.definitions.specs.Causes.{HasAllJoin, HasAllWorded, HasFew, HasDistinctNames, HasNamesLead, HasOneVhost, HasOverflows, HasPermissions};
ghost use Rattle.definitions.specs.Causes.{HasTypes, IsOfUser, IsPermitted, IsPlainBinding, IsPlainExchange, IsPlainQueue, IsShortName, IsSupported};
ghost use Rattle.definitions.specs.Causes.{PermitsAll, SaysOverflow, permission_names, user_names};
ghost use Rattle.definitions.specs.File.{file_of};

use crate::document::{
    BindingEntry, Document, ExchangeEntry, PermissionEntry, QueueEntry, UserEntry, VhostEntry,
};
use model::{ExchangeKind, Text, limits};
use std::alloc::Global;
use topology_drafts::{Directory, Draft};

// ---- 3: one vhost

/// Returns whether `name` is `/`, the only vhost.
fn is_root(name: &Text) -> bool
    ensures { Decides result (name.now ≡ codes "/") }
{
    name.as_bytes() == b"/".as_slice()
}

/// Returns whether the only vhost is `/`, and no entry names another.
pub fn has_one_vhost(document: &Document) -> bool
    ensures { Decides result (HasOneVhost (file_of document.now)) }
{
    document.vhosts.len() == 1
        && document.vhosts.iter().all(|vhost| is_root(&vhost.name))
        && document
            .permissions
            .iter()
            .all(|permission| is_root(&permission.vhost))
        && document
            .exchanges
            .iter()
            .all(|exchange| is_root(&exchange.vhost))
        && document.queues.iter().all(|queue| is_root(&queue.vhost))
        && document
            .bindings
            .iter()
            .all(|binding| is_root(&binding.vhost))
}

// ---- 4: distinct names

/// Returns whether no two users, no two queues and no two exchanges have the same name.
pub fn has_distinct_names(
    document: &Document,
    users: &Directory<'_, UserEntry>,
    draft: &Draft<'_>,
) -> bool
    requires users { users.now ≡ user_names (file_of document.now) }
    requires draft { draft.now ≡ topology_of (file_of document.now) }
    ensures { Decides result (HasDistinctNames (file_of document.now)) }
{
    let _document = document;
    users.is_distinct() && draft.is_distinct()
}

// ---- 5: the ends of bindings

/// Returns whether the source and the destination of every binding exist.
pub fn has_all_join(document: &Document, draft: &Draft<'_>) -> bool
    requires { draft.now ≡ topology_of (file_of document.now) }
    ensures { Decides result (HasAllJoin (file_of document.now)) }
{
    let _document = document;
    draft.joins()
}

// ---- 6: exchange types

/// Returns the exchange type called `name`: `direct`, `fanout` or `topic`.
pub fn kind_named(name: &[u8]) -> Option<ExchangeKind>
    ensures { result ≡ kind_named name.now }
{
    if name == b"direct".as_slice() {
        return Some(ExchangeKind::Direct);
    }
    if name == b"fanout".as_slice() {
        return Some(ExchangeKind::Fanout);
    }
    if name == b"topic".as_slice() {
        return Some(ExchangeKind::Topic);
    }
    None
}

/// Returns whether the type of every exchange is known.
pub fn has_types(document: &Document) -> bool
    ensures { Decides result (HasTypes (file_of document.now)) }
{
    document
        .exchanges
        .iter()
        .all(|exchange| kind_named(exchange.kind.as_bytes()).is_some())
}

// ---- 7: nothing that isn't supported

/// Returns whether `exchange` asks only for what is supported.
fn is_plain_exchange(exchange: &ExchangeEntry) -> bool
    ensures { Decides result (IsPlainExchange exchange.now) }
{
    exchange.listed && exchange.arguments.listed && !exchange.auto_delete
}

/// Returns whether `overflow`, if it is given, is `reject-publish`.
fn refuses(overflow: &Option<Text>) -> bool
    ensures { Decides result ((o : List ℕ) → overflow.now ≡ Some o → o ≡ codes "reject-publish") }
{
    match overflow {
        Some(overflow) => overflow.as_bytes() == b"reject-publish".as_slice(),
        None => true,
    }
}

/// Returns whether `queue` has a dead-letter exchange, if it has a dead-letter key.
fn key_has_exchange(queue: &QueueEntry) -> bool
    ensures { Decides result ((key : List ℕ) → queue.now.arguments.dead_letter_key ≡ Some key → queue.now.arguments.dead_letter_exchange ≡ None → ⊥) }
{
    queue.arguments.dead_letter_key.is_none() || queue.arguments.dead_letter_exchange.is_some()
}

/// Returns whether `queue` asks only for what is supported.
fn is_plain_queue(queue: &QueueEntry) -> bool
    ensures { Decides result (IsPlainQueue queue.now) }
{
    queue.listed
        && queue.arguments.listed
        && !queue.auto_delete
        && refuses(&queue.arguments.overflow)
        && key_has_exchange(queue)
}

/// Returns whether `kind` is a destination type: `queue` or `exchange`.
fn is_destination(kind: &[u8]) -> bool
    ensures { Decides result ((kind.now ≡ codes "queue") ⊎ (kind.now ≡ codes "exchange")) }
{
    kind == b"queue".as_slice() || kind == b"exchange".as_slice()
}

/// Returns whether `binding` asks only for what is supported.
fn is_plain_binding(binding: &BindingEntry) -> bool
    ensures { Decides result (IsPlainBinding binding.now) }
{
    binding.listed && is_destination(binding.destination_type.as_bytes())
}

/// Returns whether the file asks only for what is supported.
pub fn is_supported(document: &Document) -> bool
    ensures { Decides result (IsSupported (file_of document.now)) }
{
    document.plain
        && document
            .exchanges
            .iter()
            .all(|exchange| is_plain_exchange(exchange))
        && document.queues.iter().all(|queue| is_plain_queue(queue))
        && document
            .bindings
            .iter()
            .all(|binding| is_plain_binding(binding))
}

// ---- 8: a length limit needs an overflow

/// Returns whether `overflow` is given, if `limit` is.
fn has_overflow(limit: &Option<u32>, overflow: &Option<Text>) -> bool
    ensures { Decides result ((n : ℕ) → limit.now ≡ Some n → overflow.now ≡ None → ⊥) }
{
    limit.is_none() || overflow.is_some()
}

/// Returns whether `queue` has an overflow, if it has a limit of messages or of bytes.
fn says_overflow(queue: &QueueEntry) -> bool
    ensures { Decides result (SaysOverflow queue.now) }
{
    has_overflow(&queue.arguments.max_length, &queue.arguments.overflow)
        && has_overflow(&queue.arguments.max_bytes, &queue.arguments.overflow)
}

/// Returns whether every queue with a limit has an overflow.
pub fn has_overflows(document: &Document) -> bool
    ensures { Decides result (HasOverflows (file_of document.now)) }
{
    document.queues.iter().all(|queue| says_overflow(queue))
}

// ---- 9: names and keys

/// Returns whether `name` has at most 255 bytes.
fn is_short(name: &Text) -> bool
    ensures { Decides result (IsShortName name.now) }
{
    name.len() <= limits::SHORT_BYTES
}

/// Returns whether all names and keys are well-formed.
pub fn has_all_worded(document: &Document, draft: &Draft<'_>) -> bool
    requires { draft.now ≡ topology_of (file_of document.now) }
    ensures { Decides result (HasAllWorded (file_of document.now)) }
{
    document.users.iter().all(|user| is_short(&user.name)) && draft.is_worded()
}

// ---- 10: the limits of a file

/// Returns whether there are at most 256 exchanges, 256 queues, 4,096 bindings and 256 users.
pub fn has_few(document: &Document, draft: &Draft<'_>) -> bool
    requires { draft.now ≡ topology_of (file_of document.now) }
    ensures { Decides result (HasFew (file_of document.now)) }
{
    document.users.len() <= 256 && draft.is_small()
}

// ---- 11: alternate and dead-letter exchanges

/// Returns whether all alternate and dead-letter exchanges exist; a dead-letter exchange may also be the default one.
pub fn has_names_lead(document: &Document, draft: &Draft<'_>) -> bool
    requires { draft.now ≡ topology_of (file_of document.now) }
    ensures { Decides result (HasNamesLead (file_of document.now)) }
{
    let _document = document;
    draft.leads()
}

// ---- 12: permissions

/// Returns whether `permission` allows configuring nothing, and writing and reading everything.
fn permits_all(permission: &PermissionEntry) -> bool
    ensures { Decides result (PermitsAll permission.now) }
{
    permission.configure.as_bytes() == b"^$".as_slice()
        && permission.write.as_bytes() == b".*".as_slice()
        && permission.read.as_bytes() == b".*".as_slice()
}

/// Returns whether all `permissions` allow configuring nothing, and writing and reading everything.
fn all_permit_all(permissions: &[PermissionEntry]) -> bool
    ensures { Decides result (All PermitsAll permissions.now) }
{
    permissions.iter().all(|permission| permits_all(permission))
}

/// Returns whether one of the permissions `permitted` is of `user`.
fn is_permitted(permitted: &Directory<'_, PermissionEntry>, user: &UserEntry) -> bool
    ensures { Decides result (IsPermitted permitted.now user.now) }
{
    permitted.has(user.name.as_bytes())
}

/// Returns whether each of `users` has one of the permissions `permitted`.
fn are_permitted(permitted: &Directory<'_, PermissionEntry>, users: &[UserEntry]) -> bool
    ensures { Decides result (All (IsPermitted permitted.now) users.now) }
{
    users.iter().all(|user| is_permitted(permitted, user))
}

/// Returns whether `permission` is of one of `users`.
fn is_of_user(users: &Directory<'_, UserEntry>, permission: &PermissionEntry) -> bool
    ensures { Decides result (IsOfUser users.now permission.now) }
{
    users.has(permission.user.as_bytes())
}

/// Returns whether each of `permissions` is of one of `users`.
fn are_of_users(users: &Directory<'_, UserEntry>, permissions: &[PermissionEntry]) -> bool
    ensures { Decides result (All (IsOfUser users.now) permissions.now) }
{
    permissions
        .iter()
        .all(|permission| is_of_user(users, permission))
}

/// Returns whether each user has exactly one permission, each permission is of a user, and each allows configuring nothing, and writing and reading everything.
/// `permitted` has the users of the permissions.
fn permissions_fit(
    document: &Document,
    users: &Directory<'_, UserEntry>,
    permitted: &Directory<'_, PermissionEntry>,
) -> bool
    requires users { users.now ≡ user_names (file_of document.now) }
    requires permitted { permitted.now ≡ permission_names (file_of document.now) }
    ensures { Decides result (HasPermissions (file_of document.now)) }
{
    let whole = all_permit_all(document.permissions.as_slice());
    let distinct = permitted.is_distinct();
    let each = are_permitted(permitted, document.users.as_slice());
    let known = are_of_users(users, document.permissions.as_slice());
    whole & distinct & each & known
}

/// Returns whether each user has exactly one permission, each permission is of a user, and each allows configuring nothing, and writing and reading everything.
pub fn has_permissions(alloc: Global, document: &Document, users: &Directory<'_, UserEntry>) -> bool
    requires { users.now ≡ user_names (file_of document.now) }
    ensures { Decides result (HasPermissions (file_of document.now)) }
{
    let permitted = Directory::of(alloc, document.permissions.as_slice());
    permissions_fit(document, users, &permitted)
}
