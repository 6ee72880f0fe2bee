//! Map indexes as texts.
ghost use Rattle.std.specs.Prelude.{◌≡◌, ◌<◌, ◌^◌, ℕ, ℤ, IfSome, IfNone, Some, decimal};
ghost use Rattle.bf_seeds.specs.Seeds.{SpellsIndex};

use itoa::Buffer;

/// The number that a text spells in decimal, without a sign or leading zeros; None for any other text, and for 2^32 or
/// more.
fn number_in(text: &str) -> Option<u32>
    ensures some { IfSome result (λ n. text.now ≡ decimal n) }
    ensures every { (n : ℕ) → n < 2 ^ 32 → text.now ≡ decimal n → result ≡ Some n }
{
    let Ok(number) = text.parse::<u32>() else {
        return None;
    };
    if Buffer::new().format(number).as_bytes() != text.as_bytes() {
        return None;
    }
    Some(number)
}

/// The map index that a text spells in decimal, -1 or 0 to 2,147,483,647, without a plus sign or leading zeros; None
/// for any other text.
pub(crate) fn index_in(text: &str) -> Option<i32>
    ensures found { IfSome result (SpellsIndex text.now) }
    ensures none { IfNone result ((index : ℤ) → SpellsIndex text.now index → ⊥) }
{
    if text == "-1" {
        return Some(-1);
    }
    match number_in(text) {
        Some(number) if number < 2_147_483_648 => Some(number as i32),
        _ => None,
    }
}
