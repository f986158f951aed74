// The text form of a run: what a line says and how an opening or an action is told, as definitions, and what is proved of
// them. Of its code this crate has the words of the kinds; `printing` and `parsing` have the rest.

#![tactic(auto)]

ghost use Rattle.std.specs.Prelude.{◌≡◌};
ghost use Rattle.model.specs.KindNumbers.{kind_number};
ghost use Rattle.story.specs.Keywords.{kind_word};

use model::kinds::Kind;

// The words of the kinds, 1 to 11 in turn.
pub const KIND_WORDS: [&[u8]; 11] = [
    b"submit", b"label", b"send", b"summary", b"form", b"enter", b"place", b"receive", b"safe",
    b"confirm", b"deliver",
];

// The word of a kind.
pub fn kind_word(k: Kind) -> &'static [u8]
    ensures { result.now ≡ kind_word (kind_number k) }
{
    KIND_WORDS[k as usize - 1]
}
