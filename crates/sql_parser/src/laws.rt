ghost use Rattle.sql_parser.specs.Scripts.{ReadsExactlyScripts, RefusesFirstPlace, HasOneAnswer, NumbersScripts};

/// `script_of` answers a script exactly where the bytes are that script.
pub fn reads_exactly_scripts()
    ensures { ReadsExactlyScripts }
{}

/// `script_of` refuses exactly at the first place.
pub fn refuses_first_place()
    ensures { RefusesFirstPlace }
{}

/// Bytes are at most one script, and are refused at one place at most and only where they are none.
pub fn one_answer()
    ensures { HasOneAnswer }
{}

/// The statements of every script are numbered from 1, so their places ascend, and are of sessions from 1 to 16.
pub fn numbers_scripts()
    ensures { NumbersScripts }
{}
