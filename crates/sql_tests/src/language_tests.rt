//! The laws of predictive grammars, for the language of scripts.

ghost use Rattle.sql_parser.specs.Language.{sql, sql_predictive};

use grammar_laws::{
    Language, has_one_value, keeps_bounds, looks_one_ahead, opens_levels, reads_all_exactly,
    reads_each_sentence, reads_members_in_turn, reads_sentences, refuses_first_place,
};

struct Scripts;

impl Language for Scripts {
    ghost definition = { sql };

    ghost predictive = { sql_predictive };
}

#[test]
fn scripts_are_a_language_with_the_laws(_rt: HostRuntime) {
    reads_all_exactly::<Scripts>();
    has_one_value::<Scripts>();
    reads_sentences::<Scripts>();
    reads_each_sentence::<Scripts>();
    refuses_first_place::<Scripts>();
    looks_one_ahead::<Scripts>();
    keeps_bounds::<Scripts>();
    reads_members_in_turn::<Scripts>();
    opens_levels::<Scripts>();
}
