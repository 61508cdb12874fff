//! Parses JSON values into entries. Start with [`document`].

ghost use Rattle.std.specs.Prelude.{◌≡◌};
ghost use Rattle.serde_json.specs.View.{view};
ghost use Rattle.json_file.specs.Outcomes.{GivesValue};
ghost use Rattle.definitions.specs.File.{GivesFile, file_at};
ghost use Rattle.definitions.specs.Shape.{binding_listed_at, exchange_arguments_at, plain_at, queue_arguments_at};

use crate::document::{
    BindingEntry, Document, ExchangeArguments, ExchangeEntry, PermissionEntry, QueueArguments,
    QueueEntry, UserEntry, VhostEntry,
};
use json_file::{
    FileCause, FromValue, arguments, entries, has_only, is_filled, optional_number, optional_text,
    text, truth,
};
use serde_json::Value;
use std::alloc::Global;

impl FromValue for VhostEntry {
    ghost use Rattle.definitions.specs.Shape.{vhost_entry_at};

    ghost states = { vhost_entry_at };

    #[tactic(auto, unfolding(crate::specs::Shape::vhost_entry_at))]
    fn read(alloc: Global, value: &Value) -> Result<VhostEntry, FileCause> {
        Ok(VhostEntry {
            name: text(alloc, value, "name")?,
        })
    }
}

impl FromValue for UserEntry {
    ghost use Rattle.definitions.specs.Shape.{user_entry_at};

    ghost states = { user_entry_at };

    #[tactic(auto, unfolding(crate::specs::Shape::user_entry_at))]
    fn read(alloc: Global, value: &Value) -> Result<UserEntry, FileCause> {
        Ok(UserEntry {
            name: text(alloc, value, "name")?,
            password_hash: text(alloc, value, "password_hash")?,
            hashing_algorithm: text(alloc, value, "hashing_algorithm")?,
        })
    }
}

impl FromValue for PermissionEntry {
    ghost use Rattle.definitions.specs.Shape.{permission_entry_at};

    ghost states = { permission_entry_at };

    #[tactic(auto, unfolding(crate::specs::Shape::permission_entry_at))]
    fn read(alloc: Global, value: &Value) -> Result<PermissionEntry, FileCause> {
        Ok(PermissionEntry {
            user: text(alloc, value, "user")?,
            vhost: text(alloc, value, "vhost")?,
            configure: text(alloc, value, "configure")?,
            write: text(alloc, value, "write")?,
            read: text(alloc, value, "read")?,
        })
    }
}

/// Parses the arguments of an exchange.
#[tactic(auto, unfolding(crate::specs::Shape::exchange_arguments_at))]
fn exchange_arguments(alloc: Global, value: &Value) -> Result<ExchangeArguments, FileCause>
    ensures { GivesValue result (exchange_arguments_at (view value.now)) }
{
    let stated = arguments(value)?;
    Ok(ExchangeArguments {
        alternate: optional_text(alloc, stated, "alternate-exchange")?,
        listed: has_only(stated, &["alternate-exchange"]),
    })
}

impl FromValue for ExchangeEntry {
    ghost use Rattle.definitions.specs.Shape.{exchange_entry_at};

    ghost states = { exchange_entry_at };

    #[tactic(auto, unfolding(crate::specs::Shape::exchange_entry_at))]
    fn read(alloc: Global, value: &Value) -> Result<ExchangeEntry, FileCause> {
        let name = text(alloc, value, "name")?;
        let vhost = text(alloc, value, "vhost")?;
        let kind = text(alloc, value, "type")?;
        let _ = truth(value, "durable")?;
        let auto_delete = truth(value, "auto_delete")?;
        let internal = truth(value, "internal")?;
        let arguments = exchange_arguments(alloc, value)?;
        let listed = has_only(
            value,
            &[
                "name",
                "vhost",
                "type",
                "durable",
                "auto_delete",
                "internal",
                "arguments",
            ],
        );
        Ok(ExchangeEntry {
            name,
            vhost,
            kind,
            auto_delete,
            internal,
            arguments,
            listed,
        })
    }
}

/// Parses the arguments of a queue.
#[tactic(auto, unfolding(crate::specs::Shape::queue_arguments_at))]
fn queue_arguments(alloc: Global, value: &Value) -> Result<QueueArguments, FileCause>
    ensures { GivesValue result (queue_arguments_at (view value.now)) }
{
    let stated = arguments(value)?;
    let max_length = optional_number(stated, "x-max-length")?;
    let max_bytes = optional_number(stated, "x-max-length-bytes")?;
    let overflow = optional_text(alloc, stated, "x-overflow")?;
    let dead_letter_exchange = optional_text(alloc, stated, "x-dead-letter-exchange")?;
    let dead_letter_key = optional_text(alloc, stated, "x-dead-letter-routing-key")?;
    let listed = has_only(
        stated,
        &[
            "x-max-length",
            "x-max-length-bytes",
            "x-overflow",
            "x-dead-letter-exchange",
            "x-dead-letter-routing-key",
        ],
    );
    Ok(QueueArguments {
        max_length,
        max_bytes,
        overflow,
        dead_letter_exchange,
        dead_letter_key,
        listed,
    })
}

impl FromValue for QueueEntry {
    ghost use Rattle.definitions.specs.Shape.{queue_entry_at};

    ghost states = { queue_entry_at };

    #[tactic(auto, unfolding(crate::specs::Shape::queue_entry_at))]
    fn read(alloc: Global, value: &Value) -> Result<QueueEntry, FileCause> {
        let name = text(alloc, value, "name")?;
        let vhost = text(alloc, value, "vhost")?;
        let _ = truth(value, "durable")?;
        let auto_delete = truth(value, "auto_delete")?;
        let arguments = queue_arguments(alloc, value)?;
        let listed = has_only(
            value,
            &["name", "vhost", "durable", "auto_delete", "arguments"],
        );
        Ok(QueueEntry {
            name,
            vhost,
            auto_delete,
            arguments,
            listed,
        })
    }
}

/// Returns whether a binding has only known members, and no argument.
#[tactic(auto, unfolding(crate::specs::Shape::binding_listed_at))]
fn binding_listed(value: &Value) -> Result<bool, FileCause>
    ensures { GivesValue result (binding_listed_at (view value.now)) }
{
    let stated = arguments(value)?;
    let members = has_only(
        value,
        &[
            "source",
            "vhost",
            "destination",
            "destination_type",
            "routing_key",
            "arguments",
        ],
    );
    Ok(members & has_only(stated, &[]))
}

impl FromValue for BindingEntry {
    ghost use Rattle.definitions.specs.Shape.{binding_entry_at};

    ghost states = { binding_entry_at };

    #[tactic(auto, unfolding(crate::specs::Shape::binding_entry_at))]
    fn read(alloc: Global, value: &Value) -> Result<BindingEntry, FileCause> {
        let source = text(alloc, value, "source")?;
        let vhost = text(alloc, value, "vhost")?;
        let destination = text(alloc, value, "destination")?;
        let destination_type = text(alloc, value, "destination_type")?;
        let key = text(alloc, value, "routing_key")?;
        let listed = binding_listed(value)?;
        Ok(BindingEntry {
            source,
            vhost,
            destination,
            destination_type,
            key,
            listed,
        })
    }
}

/// Returns whether there is no policy, parameter or topic permission.
#[tactic(auto, unfolding(crate::specs::Shape::plain_at))]
fn plain(value: &Value) -> Result<bool, FileCause>
    ensures { GivesValue result (plain_at (view value.now)) }
{
    let policies = is_filled(value, "policies")?;
    let parameters = is_filled(value, "parameters")?;
    let topic_permissions = is_filled(value, "topic_permissions")?;
    Ok(!policies & !parameters & !topic_permissions)
}

/// Parses a file's entries. Fails with [`FileCause::Malformed`] unless `value` is an object with all lists and every entry
/// has the right form, or with [`FileCause::Memory`] if an allocation fails.
#[tactic(auto, unfolding(crate::specs::File::file_at))]
pub fn document(alloc: Global, value: &Value) -> Result<Document, FileCause>
    ensures { GivesFile result (file_at (view value.now)) }
{
    let vhosts = entries::<VhostEntry>(alloc, value, "vhosts")?;
    let users = entries::<UserEntry>(alloc, value, "users")?;
    let permissions = entries::<PermissionEntry>(alloc, value, "permissions")?;
    let exchanges = entries::<ExchangeEntry>(alloc, value, "exchanges")?;
    let queues = entries::<QueueEntry>(alloc, value, "queues")?;
    let bindings = entries::<BindingEntry>(alloc, value, "bindings")?;
    let plain = plain(value)?;
    Ok(Document {
        vhosts,
        users,
        permissions,
        exchanges,
        queues,
        bindings,
        plain,
    })
}
