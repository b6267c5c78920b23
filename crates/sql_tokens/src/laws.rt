ghost use Rattle.std.specs.Prelude.{◌≡◌, Some, length};
ghost use Rattle.sql_tokens.specs.Laws.{ReadsClosedTexts, RefusesOpenTexts};
ghost use Rattle.sql_tokens.specs.Tokens.{front, keyword_of, keyword_text, sign_text};
ghost use Rattle.sql_tokens.specs.declared.fronts.Front.TheVariants.{Token};
ghost use Rattle.sql_tokens.specs.declared.lexemes.Lexeme.TheVariants.{Sign as SignLexeme};

use crate::{Keyword, Sign};

/// A keyword's text reads back as the keyword.
#[tactic(auto, unfolding(crate::specs::Tokens::keyword_of))]
pub fn one_keyword_text(keyword: Keyword)
    ensures { keyword_of (keyword_text keyword) ≡ Some keyword }
{}

/// A sign's text is the token of the sign.
#[tactic(auto, unfolding(crate::specs::Tokens::front, crate::specs::Tokens::sign_front, crate::specs::Tokens::single_sign, crate::specs::Tokens::double_sign))]
pub fn one_sign_text(sign: Sign)
    ensures { front (sign_text sign) ≡ Token (SignLexeme sign) (length (sign_text sign)) }
{}

/// Each text that is closed is read as it was before its quotes were doubled, and each open one is refused.
pub fn one_quoted_text()
    ensures closed { ReadsClosedTexts }
    ensures unclosed { RefusesOpenTexts }
{}
