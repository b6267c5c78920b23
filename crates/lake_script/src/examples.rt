ghost use Rattle.std.specs.Prelude.{◌≡◌, true, Ok, Err, codes};
ghost use Rattle.lake_model.specs.Allowed.{IsLegal};
ghost use Rattle.lake_model.specs.Following.{Follows};
ghost use Rattle.sql_parser.specs.Scripts.{script_of};
ghost use Rattle.lake_script.specs.Examples as example;

/// The definitions on a worked example: its bytes are a script, and its chronicle is legal and follows the
/// script. A chronicle whose query leaves a row out doesn't follow it. Bytes without the last semicolon are
/// no script, nor is a query without a table, and each is refused at its place.
pub fn first_example()
    ensures script { script_of example.bytes ≡ Ok example.steps }
    ensures legal { IsLegal true example.entries }
    ensures follows { Follows true example.entries example.steps }
    ensures row_left_out { ¬ Follows true example.entries_without_a_row example.steps }
    ensures unended { script_of (codes "SELECT * FROM t") ≡ Err (example.syntax_at 16) }
    ensures other_query { script_of (codes "SELECT 1;") ≡ Err (example.syntax_at 9) }
{}
