//! What a rule says by itself.

ghost use Rattle.std.specs.Prelude.{◌≡◌};
ghost use Rattle.call_replies.specs.Reply as replies;

use call_scripts::ReplyItem;

/// The result of a rule: the last that it names, and zero where it names none.
pub fn result_of(rule: &[ReplyItem]) -> u32
    ensures { result ≡ replies.result_of rule.now }
{
    let mut result = 0;
    for item in rule {
        if let ReplyItem::Result(named) = item {
            result = *named;
        }
    }
    result
}
