//! What holds of each script and of each text. Each law is the contract of a call that does nothing.

ghost use Rattle.std.specs.Prelude.{All, length};
ghost use Rattle.sql_lexer.specs.Order.{AreInOrder, HasTokens};
ghost use Rattle.sql_lexer.specs.Splitting.{IsOneStatement, spans_of, statements_of};
ghost use Rattle.sql_lexer.specs.Tokens.{tokens_of};

/// The statements of a script stand in order and within it, and none is empty.
pub fn spans_in_order(script: &[u8])
    ensures { AreInOrder 0 (length script.now) (spans_of script.now) }
{}

/// The tokens of a text stand in it in order, none is empty, and between them stand blanks and comments alone.
pub fn tokens_cover(text: &[u8])
    ensures { HasTokens 0 text.now (tokens_of text.now) }
{}

/// The text of a statement, split again, is that one statement: it has no `;` outside of quotes and comments.
pub fn statements_alone(script: &[u8])
    ensures { All IsOneStatement (statements_of script.now) }
{}
