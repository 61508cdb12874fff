//! Encodes a method: measured first, so that the output grows once.

ghost use Rattle.std.specs.Prelude.{◌≡◌, ◌+◌, ◌<◌, ◌≤◌, ◌++◌, length, vec_len, vec_capacity, OnOk, IfErr, Err};
ghost use Rattle.std.specs.Int.{w16, to_be_bytes};
ghost use Rattle.model.specs.Grammar.{ids_of, method_bytes, IsMethod};
ghost use Rattle.methods.specs.declared.refusals.UnwrittenMethod.TheVariants.{Memory};
ghost use Rattle.methods.specs.Writing.{CountsMethod, MethodRefused};

use crate::lines::arguments_of;
use crate::putting::{pieces_len, put_pieces};
use crate::refusals::UnwrittenMethod;
use field_table::put_bytes;
use model::Method;

/// Appends the payload of the method frame for `m` to `out`.
///
/// Returns [`UnwrittenMethod::SyntaxError`] if `m` can't be encoded, [`UnwrittenMethod::Memory`] if an allocation fails. The
/// content of `out` has not changed then.
pub fn write_method(out: &mut Vec<u8>, m: &Method) -> Result<(), UnwrittenMethod>
    ensures ok { OnOk result (IsMethod m.now × (out.new.items ≡ out.old.items ++ method_bytes m.now)) }
    ensures err { IfErr result (λ e. MethodRefused m.now e × (out.new.items ≡ out.old.items)) }
    // On an allocation failure the capacity was too small.
    ensures full { result ≡ Err Memory → vec_capacity out.old < vec_len out.old + length (method_bytes m.now) }
{
    match spelled_len(m) {
        None => Err(UnwrittenMethod::SyntaxError),
        Some(len) => {
            match out.reserve(len) {
                Ok(()) => {}
                Err(_) => return Err(UnwrittenMethod::Memory),
            }
            put_method(out, m);
            Ok(())
        }
    }
}

/// Returns the encoded length of `m` in bytes, or `None` if it can't be encoded: a text is too long, or a table isn't one.
pub fn spelled_len(m: &Method) -> Option<usize>
    ensures { CountsMethod m.now result }
{
    let len = pieces_len(&arguments_of(m))?;
    Some(4 + len)
}

/// Appends the encoding of `m` to `out`, which has enough spare capacity; `m` can be encoded. Never allocates.
pub fn put_method(out: &mut Vec<u8>, m: &Method)
    requires spelled { IsMethod m.now }
    requires room { vec_len out.old + length (method_bytes m.now) ≤ vec_capacity out.old }
    ensures items { out.new.items ≡ out.old.items ++ method_bytes m.now }
    ensures len { vec_len out.new ≡ vec_len out.old + length (method_bytes m.now) }
    ensures capacity { vec_capacity out.old ≤ vec_capacity out.new }
{
    put_bytes(out, &head_of(m));
    put_pieces(out, &arguments_of(m));
}

/// Returns class id and method id, 2 bytes each.
fn head_of(m: &Method) -> [u8; 4]
    ensures { result ≡ to_be_bytes w16 (ids_of m.now).class ++ to_be_bytes w16 (ids_of m.now).method }
{
    let ids = m.ids();
    let [class_high, class_low] = ids.class.to_be_bytes();
    let [method_high, method_low] = ids.method.to_be_bytes();
    [class_high, class_low, method_high, method_low]
}
