//! Parses an order to grant or release a core. For instance, `250:grant:3` means: grant core 3 once 250 slices
//! (uninterrupted runs of a thread) have ended on all cores together.

ghost use Rattle.std.specs.Prelude.{◌≡◌, ◌↔◌, ℕ, List, Some, option_map};
ghost use Rattle.arachne_policy.specs.declared.orders.CoreOrder.{CoreOrder as Order};
ghost use Rattle.arachne_policy.specs.declared.orders.OrderKind.{OrderKind as Kind};
ghost use Rattle.arachne_cli.specs.Orders.{FitsWords, HasReadKind, order_word};

use arachne_lang::{figures, number, word};
use arachne_policy::{CoreOrder, OrderKind};

/// Parses one order, such as `250:grant:3`. Returns `None` if it is malformed.
pub fn read_order(spelled: &str) -> Option<CoreOrder>
    ensures { (order : Order) → (result ≡ Some order) ↔ (FitsWords order × (order_word order ≡ spelled.now)) }
{
    let Ok((after, rest)) = number(spelled.as_bytes(), b":") else {
        return None;
    };
    let Some((kind, rest)) = kind(rest) else {
        return None;
    };
    let Ok((core, rest)) = figures(u64::MAX, rest) else {
        return None;
    };
    if !rest.is_empty() {
        return None;
    }
    Some(CoreOrder { after, kind, core })
}

/// Parses the word `grant` or `release`, and the colon after it.
fn kind(text: &[u8]) -> Option<(OrderKind, &[u8])>
    ensures { HasReadKind text.now (option_map {U = Kind × List ℕ} (λ read. (read.0, read.1.now)) result) }
{
    if let Ok(rest) = word(text, b"grant:") {
        Some((OrderKind::Grant, rest))
    } else if let Ok(rest) = word(text, b"release:") {
        Some((OrderKind::Release, rest))
    } else {
        None
    }
}
