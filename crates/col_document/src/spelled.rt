//! The whole-number types whose numbers documents spell.
ghost use Rattle.std.specs.Prelude.{◌≡◌, option_map};
ghost use Rattle.col_document.specs.Document.{number_read};

use col_types::NativeArithmetics;

/// A whole-number type whose numbers documents spell.
pub trait Spelled: NativeArithmetics {
    /// The number that a text spells: a sign that the type has or none, then digits; `None` where
    /// it spells none, or one that does not fit.
    fn from_text(text: &str) -> Option<Self>
        ensures { option_map Self.value result ≡ number_read Self.whole_type text.now };
}

#[tactic(auto, using(crate::proofs::NumberTextLemmas::spelled))]
impl Spelled for i8 {
    fn from_text(text: &str) -> Option<i8> {
        text.parse::<i8>().ok()
    }
}

#[tactic(auto, using(crate::proofs::NumberTextLemmas::spelled))]
impl Spelled for i16 {
    fn from_text(text: &str) -> Option<i16> {
        text.parse::<i16>().ok()
    }
}

#[tactic(auto, using(crate::proofs::NumberTextLemmas::spelled))]
impl Spelled for i32 {
    fn from_text(text: &str) -> Option<i32> {
        text.parse::<i32>().ok()
    }
}

#[tactic(auto, using(crate::proofs::NumberTextLemmas::spelled))]
impl Spelled for i64 {
    fn from_text(text: &str) -> Option<i64> {
        text.parse::<i64>().ok()
    }
}

#[tactic(auto, using(crate::proofs::NumberTextLemmas::spelled))]
impl Spelled for u8 {
    fn from_text(text: &str) -> Option<u8> {
        text.parse::<u8>().ok()
    }
}

#[tactic(auto, using(crate::proofs::NumberTextLemmas::spelled))]
impl Spelled for u16 {
    fn from_text(text: &str) -> Option<u16> {
        text.parse::<u16>().ok()
    }
}

#[tactic(auto, using(crate::proofs::NumberTextLemmas::spelled))]
impl Spelled for u32 {
    fn from_text(text: &str) -> Option<u32> {
        text.parse::<u32>().ok()
    }
}

#[tactic(auto, using(crate::proofs::NumberTextLemmas::spelled))]
impl Spelled for u64 {
    fn from_text(text: &str) -> Option<u64> {
        text.parse::<u64>().ok()
    }
}
