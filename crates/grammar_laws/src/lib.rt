//! Predictive grammars as typed data.
//!
//! `specs/Grammars` has the data: tokens, parts in turn, choices, lists, nested sorts, each part with a value,
//! and three bounds: on the members of a list, on the levels of nesting, and on what tokens cost.
//! `specs/Phrases` says which lists of tokens are phrases of a grammar, and with which value.
//! `specs/Reading` reads a grammar from the left, and gives a value with the tokens behind it, or the refused place.
//! `specs/Prediction` has the test of a grammar, that one token always tells how to go on.
//! A crate with a concrete grammar makes each production `unfoldable`, and the proof of the function that reads it
//! opens that production alone. `proofs/Lists` and `proofs/Levels` have what loops and nested calls need.
//!
//! The functions below have no work to do: each states laws of these definitions, for every language, in its
//! contract. A language is a type with a definition (`specs/Definitions`).
#![tactic(auto)]

ghost use Rattle.grammar_laws.specs.Definitions.{Definition, IsPredictive};
ghost use Rattle.grammar_laws.specs.Laws.{ReadsSentences, ReadsEachSentence, ReadsOrMeetsLimit, FindsOneAhead, RefusesOneAhead, RefusesFirstPlace, ReadsExactlySentences, RefusesExactlyFirstPlace, HasOneValue, KeepsThroughout, KeepsInFewer, KeepsLimit, TakesToken, ReadsMembersInTurn, OpensLevels};

/// A language, by its definition.
pub trait Language {
    ghost definition: { Definition };

    // One token always tells how to go on.
    ghost predictive: { IsPredictive definition };
}

/// Of all tokens a value is read exactly where they are a sentence with it, and refused exactly at the first place
/// that no sentence goes on with, or none that keeps the bounds.
pub fn reads_all_exactly<L: Language>()
    ensures found { ReadsExactlySentences L.definition }
    ensures refused { RefusesExactlyFirstPlace L.definition }
{}

/// Tokens have at most one value.
pub fn has_one_value<L: Language>()
    ensures { HasOneValue L.definition }
{}

/// What is read is a sentence, and the rest is what follows it.
pub fn reads_sentences<L: Language>()
    ensures { ReadsSentences L.definition }
{}

/// Each sentence is read whole where nothing goes on with it, unless it passes a bound; then it meets a limit.
pub fn reads_each_sentence<L: Language>()
    ensures kept { ReadsEachSentence L.definition }
    ensures any { ReadsOrMeetsLimit L.definition }
{}

/// A refusal is at the first place.
pub fn refuses_first_place<L: Language>()
    ensures { RefusesFirstPlace L.definition }
{}

/// An answer hangs on no token behind the first of its rest.
pub fn looks_one_ahead<L: Language>()
    ensures found { FindsOneAhead L.definition }
    ensures refused { RefusesOneAhead L.definition }
{}

/// What it means that a sentence keeps the bounds in some of its tokens.
pub fn keeps_bounds<L: Language>()
    ensures throughout { KeepsThroughout L.definition }
    ensures fewer { KeepsInFewer L.definition }
    ensures limit { KeepsLimit L.definition }
{}

/// A list is read a member at a time, as a loop does, and each member takes a token.
pub fn reads_members_in_turn<L: Language>()
    ensures turns { ReadsMembersInTurn L.definition }
    ensures takes { TakesToken L.definition }
{}

/// Levels are counted down.
pub fn opens_levels<L: Language>()
    ensures { OpensLevels L.definition }
{}
