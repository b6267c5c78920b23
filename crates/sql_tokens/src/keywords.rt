ghost use Rattle.std.specs.Prelude.{◌≡◌, ◌==◌};
ghost use Rattle.std.specs.List.{filter, find};
ghost use Rattle.sql_tokens.specs.Tokens.{begins_with, keyword_of, keyword_text, keywords, same_bytes};

/// The words that no table and no column may be named by.
#[derive(Clone, Copy, Debug, PartialEq, Eq)]
pub enum Keyword {
    And,
    As,
    Asc,
    Begin,
    By,
    Checkpoint,
    Collect,
    Commit,
    Compact,
    Count,
    Create,
    Delete,
    Desc,
    Distribute,
    From,
    Group,
    Inner,
    Insert,
    Int,
    Into,
    Is,
    Join,
    Limit,
    Max,
    Min,
    Not,
    Null,
    On,
    Or,
    Order,
    Parallel,
    Retain,
    Rollback,
    Select,
    Set,
    Sum,
    Table,
    Text,
    Transaction,
    Update,
    Values,
    Where,
}

impl Keyword {
    /// The keyword in lower case.
    pub fn text(self) -> &'static str
        ensures { result.now ≡ keyword_text self }
    {
        match self {
            Keyword::And => "and",
            Keyword::As => "as",
            Keyword::Asc => "asc",
            Keyword::Begin => "begin",
            Keyword::By => "by",
            Keyword::Checkpoint => "checkpoint",
            Keyword::Collect => "collect",
            Keyword::Commit => "commit",
            Keyword::Compact => "compact",
            Keyword::Count => "count",
            Keyword::Create => "create",
            Keyword::Delete => "delete",
            Keyword::Desc => "desc",
            Keyword::Distribute => "distribute",
            Keyword::From => "from",
            Keyword::Group => "group",
            Keyword::Inner => "inner",
            Keyword::Insert => "insert",
            Keyword::Int => "int",
            Keyword::Into => "into",
            Keyword::Is => "is",
            Keyword::Join => "join",
            Keyword::Limit => "limit",
            Keyword::Max => "max",
            Keyword::Min => "min",
            Keyword::Not => "not",
            Keyword::Null => "null",
            Keyword::On => "on",
            Keyword::Or => "or",
            Keyword::Order => "order",
            Keyword::Parallel => "parallel",
            Keyword::Retain => "retain",
            Keyword::Rollback => "rollback",
            Keyword::Select => "select",
            Keyword::Set => "set",
            Keyword::Sum => "sum",
            Keyword::Table => "table",
            Keyword::Text => "text",
            Keyword::Transaction => "transaction",
            Keyword::Update => "update",
            Keyword::Values => "values",
            Keyword::Where => "where",
        }
    }
}

/// The keyword that a name in lower case is.
#[tactic(auto, unfolding(crate::specs::Tokens::keyword_of))]
pub fn keyword_of(name: &[u8]) -> Option<Keyword>
    ensures { result ≡ keyword_of name.now }
{
    if name.is_empty() {
        return None;
    }
    keyword_among(beginning_with(name[0]), name)
}

fn keyword_among(keywords: &[Keyword], name: &[u8]) -> Option<Keyword>
    ensures { result ≡ find (λ keyword. same_bytes (keyword_text keyword) name.now) keywords.now }
{
    keywords
        .iter()
        .copied()
        .find(|keyword| keyword.text().as_bytes() == name)
}

/// The keywords that begin with this letter.
fn beginning_with(letter: u8) -> &'static [Keyword]
    ensures { result.now ≡ filter (λ keyword. begins_with (λ b. b == letter) (keyword_text keyword)) keywords }
{
    match letter {
        b'a' => &[Keyword::And, Keyword::As, Keyword::Asc],
        b'b' => &[Keyword::Begin, Keyword::By],
        b'c' => &[
            Keyword::Checkpoint,
            Keyword::Collect,
            Keyword::Commit,
            Keyword::Compact,
            Keyword::Count,
            Keyword::Create,
        ],
        b'd' => &[Keyword::Delete, Keyword::Desc, Keyword::Distribute],
        b'f' => &[Keyword::From],
        b'g' => &[Keyword::Group],
        b'i' => &[
            Keyword::Inner,
            Keyword::Insert,
            Keyword::Int,
            Keyword::Into,
            Keyword::Is,
        ],
        b'j' => &[Keyword::Join],
        b'l' => &[Keyword::Limit],
        b'm' => &[Keyword::Max, Keyword::Min],
        b'n' => &[Keyword::Not, Keyword::Null],
        b'o' => &[Keyword::On, Keyword::Or, Keyword::Order],
        b'p' => &[Keyword::Parallel],
        b'r' => &[Keyword::Retain, Keyword::Rollback],
        b's' => &[Keyword::Select, Keyword::Set, Keyword::Sum],
        b't' => &[Keyword::Table, Keyword::Text, Keyword::Transaction],
        b'u' => &[Keyword::Update],
        b'v' => &[Keyword::Values],
        b'w' => &[Keyword::Where],
        _ => &[],
    }
}
